// Writing one record of a sheet, page 01 'Sheet records' and page 02 'Ask 7', 'Ask 8' and 'Ask 10'.
#![tactic(auto)]

ghost use Rattle.std.specs.Prelude.{true, ◌++◌, ◌≡◌, ◌+◌, ◌≤◌, length};
ghost use Rattle.sheet_record.specs.Numbers.{digits, pasted};
ghost use Rattle.sheet_record.specs.Kinds;
ghost use Rattle.sheet_record.specs.Kinds.{encode};
ghost use Rattle.sheet_record.specs.Widths.{Wide};
ghost use Rattle.sheet_write.specs.Writing.{put_answer, put_bytes, free_answer, free_bytes};

use common::Refusal;
use sheet_ranges::in_range;
use sheet_record::{Given, Record, known};

// Puts the w digits of v from a place on, the highest first.
fn put_number(buf: &mut [u8], at: usize, w: usize, v: u32)
    requires { at + w ≤ length buf.old }
    ensures { buf.new ≡ pasted buf.old at (digits w v) }
{
    let mut x = v;
    for j in (0..w).rev() {
        buf[at + j] = (x % 256) as u8;
        x /= 256;
    }
}

// Puts two numbers, one behind the other.
fn put_two(buf: &mut [u8], at: usize, w: usize, x: u32, v: usize, y: u32)
    requires { at + w + v ≤ length buf.old }
    ensures { buf.new ≡ pasted buf.old at (digits w x ++ digits v y) }
{
    put_number(buf, at, w, x);
    put_number(buf, at + w, v, y);
}

// Puts the bytes of a record whose kind has fields of these widths.
fn store(
    buf: &mut [u8],
    at: usize,
    r: Record,
    wa: usize,
    wb: usize,
    wc: usize,
    wd: usize,
    we: usize,
)
    requires we_in_bounds { at + (1 + wa + wb + wc + wd + we) ≤ length buf.old }
    requires wide { Wide r.kind wa wb wc wd we }
    ensures { buf.new ≡ pasted buf.old at (encode r) }
{
    buf[at] = r.kind;
    put_two(buf, at + 1, wa, r.a, wb, r.b);
    put_two(buf, at + 1 + wa + wb, wc, r.c, wd, r.d);
    put_number(buf, at + 1 + wa + wb + wc + wd, we, r.e);
}

// The greatest place that can be counted.
const LAST: usize = 18446744073709551615;

// Writes a record that the writer puts, if there is room: its length is not added to a place that is too high for it.
fn put_whole(
    buf: &mut [u8],
    at: usize,
    r: Record,
    wa: usize,
    wb: usize,
    wc: usize,
    wd: usize,
    we: usize,
) -> Result<usize, Refusal>
    requires kind_value { Kinds.written r.kind ≡ true }
    requires wide { Wide r.kind wa wb wc wd we }
    ensures value { result ≡ free_answer (length buf.old) at r }
    ensures buf_after { buf.new ≡ free_bytes buf.old at r }
{
    let size = 1 + wa + wb + wc + wd + we;
    if LAST - size < at {
        return Err(Refusal { no: 13, place: 0 });
    }
    let end = at + size;
    if buf.len() < end {
        return Err(Refusal { no: 13, place: end });
    }
    store(buf, at, r, wa, wb, wc, wd, we);
    Ok(end)
}

// The writer puts this kind: all that are known but 3, in whose place stand 9 and 10.
fn written(kind: u8) -> bool
    ensures { result ≡ Kinds.written kind }
{
    known(kind) & (kind != 3)
}

// Writes one record at a place, whatever its numbers are: of each the bytes of its field. Answers the place just after it. Refused with 2 or 13, and then no
// byte changes.
pub fn put_free(buf: &mut [u8], at: usize, r: Record) -> Result<usize, Refusal>
    ensures value { result ≡ free_answer (length buf.old) at r }
    ensures buf_after { buf.new ≡ free_bytes buf.old at r }
{
    let kind = r.kind;
    if !written(kind) {
        return Err(Refusal { no: 2, place: at });
    }
    match kind {
        1 => put_whole(buf, at, r, 1, 0, 0, 0, 0),
        2 => put_whole(buf, at, r, 1, 2, 4, 4, 0),
        4 => put_whole(buf, at, r, 1, 4, 4, 0, 0),
        5 => put_whole(buf, at, r, 4, 0, 0, 0, 0),
        6 => put_whole(buf, at, r, 2, 4, 0, 0, 0),
        7 => put_whole(buf, at, r, 1, 2, 4, 4, 4),
        8 => put_whole(buf, at, r, 1, 0, 0, 0, 0),
        // 9 and 10, the kinds that are left
        _ => put_whole(buf, at, r, 1, 4, 0, 0, 0),
    }
}

// Writes one record at a place, and answers the place just after it. Refused with 2, 4 or 13, in this order, and then no byte changes.
pub fn put_record(buf: &mut [u8], at: usize, r: Record) -> Result<usize, Refusal>
    ensures value { result ≡ put_answer (length buf.old) at r }
    ensures buf_after { buf.new ≡ put_bytes buf.old at r }
{
    // Limits that need another record are taken at their greatest.
    let given = Given {
        masters: 32,
        message: 100000,
    };
    if written(r.kind) & !in_range(given, r) {
        return Err(Refusal { no: 4, place: at });
    }
    put_free(buf, at, r)
}
