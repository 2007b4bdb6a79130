// The writer at the edges of every field, and what it wrote read back: page 01, 'Sheet records'. A line of standard input is a case in
// hexadecimal digits: the place in 8 bytes, the room in one, and the record, its kind in one byte and its numbers in 4 each; a number that is
// left out at the end is 0. The line that is written for it has these numbers in decimal digits, the answer, and the buffer after the call, where
// ee is a byte that keeps what it had.
#![tactic(auto)]

ghost use Rattle.std.specs.Prelude.{◌≤◌, length};

use common::Refusal;
use sheet_record::Record;
use std::io::Read;

fn say(rt: &HostRuntime, text: &[u8]) {
    let _ = rt.write_all(text);
}

fn say_with(rt: &HostRuntime, text: &[u8], n: u64) {
    say(rt, text);
    let _ = print!(rt; "{n}");
}

fn say_place(rt: &HostRuntime, at: usize, room: usize) {
    say_with(rt, b"at byte ", at as u64);
    say_with(rt, b" of ", room as u64);
}

// The unit of a record's times, by its bus.
fn say_unit(rt: &HostRuntime, kind: u8) {
    if (kind == 5) | (kind == 6) {
        say(rt, b", times in us: ");
    } else {
        say(rt, b", times in bp: ");
    }
}

fn say_record(rt: &HostRuntime, r: Record) {
    say_with(rt, b": kind ", r.kind as u64);
    say_with(rt, b" ", r.a as u64);
    say_with(rt, b" ", r.b as u64);
    say_with(rt, b" ", r.c as u64);
    say_with(rt, b" ", r.d as u64);
    say_with(rt, b" ", r.e as u64);
    say_unit(rt, r.kind);
}

fn same(r: Record, q: Record) -> bool {
    (r.kind == q.kind) & (r.a == q.a) & (r.b == q.b) & (r.c == q.c) & (r.d == q.d) & (r.e == q.e)
}

// The place behind the record, and whether the record stands there.
fn say_next(rt: &HostRuntime, next: usize, s: &[u8], at: usize, r: Record) {
    say_with(rt, b"next ", next as u64);
    let m = sheet_record::record_at(s, at);
    if (m.next == next) & same(m.found, r) {
        say(rt, b", read back");
    }
}

fn say_answer(rt: &HostRuntime, answer: Result<usize, Refusal>, s: &[u8], at: usize, r: Record) {
    match answer {
        Ok(next) => say_next(rt, next, s, at, r),
        Err(refusal) => {
            say_with(rt, b"refused ", refusal.no as u64);
            say_with(rt, b" at ", refusal.place as u64);
        }
    }
}

fn say_byte(rt: &HostRuntime, b: u8) {
    let _ = print!(rt; "{b:02x}");
}

fn say_bytes(rt: &HostRuntime, s: &[u8]) {
    say(rt, b": ");
    for byte in s {
        say_byte(rt, *byte);
    }
}

fn put(rt: &HostRuntime, lent: &mut [u8], at: usize, r: Record) {
    let answer = sheet_write::put_record(lent, at, r);
    say_answer(rt, answer, lent, at, r);
    say_bytes(rt, lent);
}

fn joined(a: u8, b: u8, c: u8, d: u8) -> u32 {
    a as u32 * 16777216 + b as u32 * 65536 + c as u32 * 256 + d as u32
}

// The number of four bytes at a place, the highest first.
fn number(c: [u8; 30], at: usize) -> u32 {
    if 26 < at {
        return 0;
    }
    joined(c[at], c[at + 1], c[at + 2], c[at + 3])
}

// The length of the lent run, 24 at most.
fn room_of(asked: u8) -> usize
    ensures { result ≤ 24 }
{
    asked.min(24) as usize
}

fn record_of(c: [u8; 30]) -> Record {
    Record {
        kind: c[9],
        a: number(c, 10),
        b: number(c, 14),
        c: number(c, 18),
        d: number(c, 22),
        e: number(c, 26),
    }
}

fn place_of(high: u32, low: u32) -> usize {
    high as usize * 4294967296 + low as usize
}

fn try_case(rt: &HostRuntime, at: usize, room: usize, r: Record)
    requires { room ≤ 24 }
{
    let mut buf = [238u8; 24];
    say_place(rt, at, room);
    say_record(rt, r);
    put(rt, &mut buf[..room], at, r);
    say(rt, b".\n");
}

fn try_line(rt: &HostRuntime, line: &[u8]) {
    let mut case = [0u8; 30];
    text_hex::put_bytes(&mut case, line);
    let at = place_of(number(case, 0), number(case, 4));
    try_case(rt, at, room_of(case[8]), record_of(case));
}

fn try_lines(rt: &HostRuntime, text: &[u8]) {
    let mut start = 0;
    for (i, byte) in text.iter().enumerate() {
        if *byte == b'\n' {
            try_line(rt, &text[start..i]);
            start = i + 1;
        }
    }
}

// Reads standard input until it ends, a read fails or the buffer is full; how many bytes that are.
fn read_full(rt: &HostRuntime, buf: &mut [u8]) -> usize
    ensures { result ≤ length buf.new }
{
    let mut done: usize = 0;
    while done < buf.len() {
        let n = rt.stdin().read(&mut buf[done..]).unwrap_or(0);
        if n == 0 {
            return done;
        }
        done += n;
    }
    done
}

fn main(rt: HostRuntime) {
    let mut buf = [0u8; 65536];
    let n = read_full(&rt, &mut buf);
    try_lines(&rt, &buf[..n]);
}
