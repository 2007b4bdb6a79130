// The report's lines, page 01 'Sheets worked by hand', built from fixed byte strings and numbers. Each function writes into a lent
// run from a place on and answers the place just after; what does not fit is left out.
#![tactic(auto)]

ghost use Rattle.text.specs.Text.{Wrote, item, texts};
ghost use Rattle.report_lines.specs.Lines.{master_line, master_text, ring_text, name_text, name_at, row_line, table_head};

use report_phrases::{put_name, put_two, put_us};
use text::{put_counted, put_word};
use units::{BitPeriods, Micros, RingPeriods};

fn put_line(
    out: &mut [u8],
    at: usize,
    k: u64,
    bound: BitPeriods,
    refined: BitPeriods,
    rounds: u32,
) -> usize
    ensures { Wrote out.old at (master_line k bound refined rounds) out.new result }
{
    let figures = put_name(out, at, k);
    let count = put_two(out, figures, b" bound ", bound, b" refined ", refined);
    put_counted(out, count, b" ", rounds as u64, b" rounds\n")
}

// The line of master k, if it has streams.
pub fn put_master(
    out: &mut [u8],
    at: usize,
    k: u64,
    bound: BitPeriods,
    refined: BitPeriods,
    rounds: u32,
) -> usize
    ensures { Wrote out.old at (master_text k bound refined rounds) out.new result }
{
    if bound.0 == 0 {
        return at;
    }
    put_line(out, at, k, bound, refined, rounds)
}

// The rotation time and the stream that limits it.
pub fn put_ring(out: &mut [u8], at: usize, rotation: RingPeriods, stream: u64) -> usize
    ensures { Wrote out.old at (ring_text rotation stream) out.new result }
{
    let next = put_counted(out, at, b"PROFIBUS ring\nTTR ", rotation.0 as u64, b" bp");
    put_counted(out, next, b" limited by stream ", stream, b"\n")
}

// An identifier, if its bit is set.
fn put_ident(out: &mut [u8], at: usize, bit: u64, name: u16) -> usize
    ensures { Wrote out.old at (name_text bit name) out.new result }
{
    if bit == 1 {
        return put_counted(out, at, b" ", name as u64, b"");
    }
    at
}

// The identifiers of the ranks that a row serves.
fn put_idents(out: &mut [u8], at: usize, row: u64, names: &[u16; 64]) -> usize
    ensures { Wrote out.old at (texts (name_at row (item names.now)) 64) out.new result }
{
    let mut next = at;
    let mut rest = row;
    for name in names {
        next = put_ident(out, next, rest % 2, *name);
        rest /= 2;
    }
    next
}

// Row m.
pub fn put_row(out: &mut [u8], at: usize, m: u64, row: u64, names: &[u16; 64]) -> usize
    ensures { Wrote out.old at (row_line m row (item names.now)) out.new result }
{
    let idents = put_counted(out, at, b"row ", m, b":");
    let end = put_idents(out, idents, row, names);
    put_word(out, end, b"\n")
}

// The first two lines of a table.
pub fn put_head(out: &mut [u8], at: usize, microcycle: Micros, slots: u64, count: u64) -> usize
    ensures { Wrote out.old at (table_head microcycle slots count) out.new result }
{
    let first = put_us(out, at, b"WorldFIP table\nmicrocycle ", microcycle);
    let second = put_counted(out, first, b" ", slots, b" slots");
    put_counted(out, second, b" ", count, b" rows\n")
}
