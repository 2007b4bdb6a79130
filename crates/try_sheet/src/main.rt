// The reader on the sheets of standard input, a line of hexadecimal digits each, and on sheets with as many streams as a limit allows
// and one more: page 01, 'Sheet records' and 'Numbered refusals' 1..7, and page 02, Ask 8. Each sheet is written again with the answer behind it.
#![tactic(auto)]

ghost use Rattle.std.specs.Prelude.{◌≤◌, length};

use common::Refusal;
use sheet_read::Accepted;
use sheet_record::Record;
use std::io::Read;

fn say(rt: &HostRuntime, text: &[u8]) {
    let _ = rt.write_all(text);
}

fn say_number(rt: &HostRuntime, n: u64) {
    let _ = print!(rt; "{n}");
}

fn say_with(rt: &HostRuntime, text: &[u8], n: u64) {
    say(rt, text);
    say_number(rt, n);
}

fn say_accepted(rt: &HostRuntime, sheet: Accepted) {
    say_with(rt, b": accepted, kind ", sheet.head.kind as u64);
    say_with(rt, b", ", sheet.streams as u64);
    say_with(rt, b" streams from ", sheet.first as u64);
    say(rt, b"\n");
}

fn say_refused(rt: &HostRuntime, refusal: Refusal) {
    say_with(rt, b": refused ", refusal.no as u64);
    say_with(rt, b" at ", refusal.place as u64);
    say(rt, b"\n");
}

fn say_answer(rt: &HostRuntime, answer: Result<Accepted, Refusal>) {
    match answer {
        Ok(sheet) => say_accepted(rt, sheet),
        Err(refusal) => say_refused(rt, refusal),
    }
}

// Reads the front of a buffer.
fn say_front(rt: &HostRuntime, buf: &[u8], end: usize) {
    if end <= buf.len() {
        say_answer(rt, sheet_read::read(&buf[..end]));
    }
}

fn say_sheet(rt: &HostRuntime, sheet: &[u8; 64], n: usize) {
    say_front(rt, sheet, n);
}

// A line that begins with # is a title.
fn is_title(line: &[u8]) -> bool {
    if line.len() == 0 {
        return false;
    }
    line[0] == b'#'
}

fn try_line(rt: &HostRuntime, line: &[u8]) {
    say(rt, line);
    if is_title(line) {
        say(rt, b"\n");
        return;
    }
    let mut sheet = [0u8; 64];
    let n = text_hex::put_bytes(&mut sheet, line);
    say_sheet(rt, &sheet, n);
}

fn try_lines(rt: &HostRuntime, text: &[u8]) {
    let mut start = 0;
    for (i, byte) in text.iter().enumerate() {
        if *byte == b'\n' {
            try_line(rt, &text[start..i]);
            start = i + 1;
        }
    }
}

fn record_of(kind: u8, a: u32, b: u32, c: u32, d: u32) -> Record {
    Record {
        kind,
        a,
        b,
        c,
        d,
        e: 0,
    }
}

// Puts n records from a place on, each with the next number of least..=most in its first field; the place behind the last.
fn put_all(buf: &mut [u8], from: usize, each: Record, least: u32, most: u32, n: usize) -> usize {
    let mut at = from;
    let mut a = least;
    for _ in 0..n {
        let answer = sheet_write::put_record(
            buf,
            at,
            record_of(each.kind, a, each.b, each.c, each.d),
        );
        let Ok(next) = answer else {
            return at;
        };
        at = next;
        if a < most {
            a += 1;
        } else {
            a = least;
        }
    }
    at
}

fn say_crowd(rt: &HostRuntime, head: Record, each: Record, least: u32, most: u32, n: usize) {
    say_number(rt, n as u64);
    say_with(rt, b" records of kind ", each.kind as u64);
    say_with(rt, b", first field ", least as u64);
    say_with(rt, b" to ", most as u64);
    say_with(rt, b", behind kind ", head.kind as u64);
}

fn try_crowd(rt: &HostRuntime, head: Record, each: Record, least: u32, most: u32, n: usize) {
    let mut buf = [0u8; 65536];
    say_crowd(rt, head, each, least, most, n);
    let first = put_all(&mut buf, 0, head, head.a, head.a, 1);
    let end = put_all(&mut buf, first, each, least, most, n);
    say_front(rt, &buf, end);
}

// At most 80 streams for one master.
fn pnet_master_limits(rt: &HostRuntime) {
    let each = record_of(2, 1, 203, 1000, 1000);
    let head = record_of(1, 32, 0, 0, 0);
    try_crowd(rt, head, each, 1, 1, 80);
    try_crowd(rt, head, each, 1, 1, 81);
    try_crowd(rt, head, each, 32, 32, 81);
}

// At most 800 streams: behind N = 32, 10 and 31, which has no master 32.
fn pnet_limits(rt: &HostRuntime) {
    let each = record_of(2, 1, 203, 1000, 1000);
    let head = record_of(1, 32, 0, 0, 0);
    let ten = record_of(1, 10, 0, 0, 0);
    let short = record_of(1, 31, 0, 0, 0);
    try_crowd(rt, head, each, 1, 32, 800);
    try_crowd(rt, head, each, 1, 32, 801);
    try_crowd(rt, ten, each, 1, 10, 800);
    try_crowd(rt, ten, each, 1, 10, 801);
    try_crowd(rt, short, each, 1, 32, 800);
}

// Puts the longest message of each of 32 masters behind their ring; the place behind the last.
fn put_ring(buf: &mut [u8], ring: Record) -> usize {
    let first = put_all(buf, 0, ring, ring.a, ring.a, 1);
    put_all(buf, first, record_of(10, 1, 500, 0, 0), 1, 32, 32)
}

fn try_ring(rt: &HostRuntime, each: Record, least: u32, most: u32, n: usize) {
    let mut buf = [0u8; 65536];
    let ring = record_of(9, 32, 300, 0, 0);
    say_crowd(rt, ring, each, least, most, n);
    let first = put_ring(&mut buf, ring);
    let end = put_all(&mut buf, first, each, least, most, n);
    say_front(rt, &buf, end);
}

// The same behind a ring of 32 masters.
fn profibus_limits(rt: &HostRuntime) {
    let each = record_of(4, 1, 400, 8400, 0);
    try_ring(rt, each, 1, 1, 80);
    try_ring(rt, each, 1, 1, 81);
    try_ring(rt, each, 1, 32, 800);
    try_ring(rt, each, 1, 32, 801);
}

// At most 64 variables, each with an identifier of its own; the 65th is 5, also where its identifier was met before.
fn worldfip_limits(rt: &HostRuntime) {
    let each = record_of(6, 1, 1000, 0, 0);
    let head = record_of(5, 400, 0, 0, 0);
    try_crowd(rt, head, each, 0, 63, 64);
    try_crowd(rt, head, each, 0, 64, 65);
    try_crowd(rt, head, each, 0, 63, 65);
    try_crowd(rt, head, each, 0, 62, 64);
    try_crowd(rt, head, each, 1, 1, 2);
}

// Reads standard input until it ends, a read fails or the buffer is full; how many bytes that are.
fn read_full(rt: &HostRuntime, buf: &mut [u8]) -> usize
    ensures { result ≤ length buf.new }
{
    let mut done: usize = 0;
    while done < buf.len() {
        let n = rt.stdin().read(&mut buf[done..]).unwrap_or(0);
        if n == 0 {
            return done;
        }
        done += n;
    }
    done
}

fn main(rt: HostRuntime) {
    let mut buf = [0u8; 65536];
    let n = read_full(&rt, &mut buf);
    try_lines(&rt, &buf[..n]);
    pnet_master_limits(&rt);
    pnet_limits(&rt);
    profibus_limits(&rt);
    worldfip_limits(&rt);
}
