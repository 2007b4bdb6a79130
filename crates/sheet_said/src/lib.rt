// The record that a line of text says, page 02 'Ask 14'. The line is taken for that of the only record that it can be, and that record's line, written by sheet_line, is held against it.
#![tactic(auto)]

ghost use Rattle.std.specs.Prelude.{◌≡◌, ◌≤◌, length, drop};
ghost use Rattle.sheet_line.specs.Lines;
ghost use Rattle.sheet_said.specs.Said;
ghost use Rattle.sheet_said.specs.Said.{kind_in, number_at, behind_comma, record_in};

use sheet_line::{LINE, put_line};
use sheet_record::Record;

// These bytes stand at the front of a line. By a loop, which the compiler lays out for each word of `kind_in`; with `starts_with` each word was a call.
pub fn begins(line: &[u8], word: &[u8]) -> bool
    ensures { result ≡ Said.begins word.now line.now }
{
    if line.len() < word.len() {
        return false;
    }
    for i in 0..word.len() {
        if line[i] != word[i] {
            return false;
        }
    }
    true
}

// The kind whose word and a comma stand at the front of a line, or of a whole text; 0 if there is none.
pub fn kind_in(line: &[u8]) -> u8
    ensures { result ≡ kind_in line.now }
{
    if begins(line, b"pnet-segment,") {
        return 1;
    }
    if begins(line, b"pnet-stream,") {
        return 2;
    }
    if begins(line, b"profibus-stream,") {
        return 4;
    }
    if begins(line, b"worldfip-exchange,") {
        return 5;
    }
    if begins(line, b"worldfip-variable,") {
        return 6;
    }
    if begins(line, b"pnet-jitter-stream,") {
        return 7;
    }
    if begins(line, b"pnet-edition,") {
        return 8;
    }
    if begins(line, b"profibus-ring,") {
        return 9;
    }
    if begins(line, b"profibus-message,") {
        return 10;
    }
    0
}

// A number, and the place behind the comma that ends it, or the end of the line.
#[derive(Clone, Copy)]
struct Cell {
    number: u32,
    next: usize,
}

// The number that the digits from a place to the next comma say. `next` moves with each byte: were the line's length answered behind the loop, the compiler, which
// lays out the six calls of `guess` one behind the other, would count in each loop for all the later ones.
fn cell_at(line: &[u8], at: usize) -> Cell
    requires { at ≤ length line.now }
    ensures number_value { result.number ≡ number_at (drop at line.now) }
    ensures line_value { drop result.next line.now ≡ behind_comma (drop at line.now) }
    ensures next_in_bounds { result.next ≤ length line.now }
{
    let mut number: u32 = 0;
    let mut next = at;
    for i in at..line.len() {
        let byte = line[i];
        next = i + 1;
        if byte == b',' {
            break;
        }
        number = text_entry::with_byte(number, byte);
    }
    Cell { number, next }
}

// The only record that a line can be that of: its word's kind, and what the digits behind each comma say.
pub fn guess(line: &[u8]) -> Record
    ensures { result ≡ Said.guess line.now }
{
    let word = cell_at(line, 0);
    let a = cell_at(line, word.next);
    let b = cell_at(line, a.next);
    let c = cell_at(line, b.next);
    let d = cell_at(line, c.next);
    let e = cell_at(line, d.next);
    Record {
        kind: kind_in(line),
        a: a.number,
        b: b.number,
        c: c.number,
        d: d.number,
        e: e.number,
    }
}

// A line can say this record: its kind has a word, and each number is in the bytes of its field. All tests are made at once.
fn sayable(r: Record) -> bool
    ensures { result ≡ Lines.sayable r }
{
    let kind = r.kind;
    let a = r.a;
    let b = r.b;
    let c = r.c;
    let d = r.d;
    let e = r.e;
    match kind {
        1 => (a <= 255) & (b == 0) & (c == 0) & (d == 0) & (e == 0),
        2 => (a <= 255) & (b <= 65535) & (e == 0),
        4 => (a <= 255) & (d == 0) & (e == 0),
        5 => (b == 0) & (c == 0) & (d == 0) & (e == 0),
        6 => (a <= 65535) & (c == 0) & (d == 0) & (e == 0),
        7 => (a <= 255) & (b <= 65535),
        8 => (a <= 255) & (b == 0) & (c == 0) & (d == 0) & (e == 0),
        9 => (a <= 255) & (c == 0) & (d == 0) & (e == 0),
        10 => (a <= 255) & (c == 0) & (d == 0) & (e == 0),
        _ => false,
    }
}

// The record whose line this is; one of kind 0 where it is the line of none.
pub fn record_in(line: &[u8]) -> Record
    ensures { result ≡ record_in line.now }
{
    let taken = guess(line);
    let mut own = [0u8; LINE];
    let n = put_line(&mut own, 0, taken);
    if sayable(taken) & check::same(&own[..n], line) {
        return taken;
    }
    Record {
        kind: 0,
        a: 0,
        b: 0,
        c: 0,
        d: 0,
        e: 0,
    }
}
