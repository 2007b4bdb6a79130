// One record of a sheet as a line of text, page 02 'Ask 14': `pnet-stream,1,203 bp,1000 bp,1000 bp`.
#![tactic(auto)]

ghost use Rattle.std.specs.Prelude.{◌≡◌};
ghost use Rattle.text.specs.Text.{item, Wrote};
ghost use Rattle.sheet_line.specs.Lines.{has_word, line_text, others, line_by};

use sheet_record::Record;
use text::put_counted;

// No record's line is as long.
pub const LINE: usize = 96;

// The kind has a word: all that are known but 3, which is no longer written.
pub fn has_word(kind: u8) -> bool
    ensures { result ≡ has_word kind }
{
    (kind != 3) & sheet_record::known(kind)
}

// Number j of a record, counted from 0, behind its first.
fn other(r: Record, j: usize) -> u32
    ensures { result ≡ item (others r) j }
{
    match j {
        0 => r.b,
        1 => r.c,
        2 => r.d,
        3 => r.e,
        _ => 0,
    }
}

// The line of a record whose first number has no unit, and n others this one, behind a word with its comma.
fn put_cells(out: &mut [u8], at: usize, name: &[u8], r: Record, n: usize, unit: &[u8]) -> usize
    ensures { Wrote out.old at (line_by name.now r n unit.now) out.new result }
{
    let mut next = put_counted(out, at, name, r.a as u64, b"");
    for j in 0..n {
        next = put_counted(out, next, b",", other(r, j) as u64, unit);
    }
    text::put_word(out, next, b"\n")
}

// Writes the line of a record from a place on, and answers the place just after it. What does not fit is left out; a record whose kind has no word has no line.
pub fn put_line(out: &mut [u8], at: usize, r: Record) -> usize
    ensures { Wrote out.old at (line_text r) out.new result }
{
    let kind = r.kind;
    match kind {
        1 => put_cells(out, at, b"pnet-segment,", r, 0, b""),
        2 => put_cells(out, at, b"pnet-stream,", r, 3, b" bp"),
        4 => put_cells(out, at, b"profibus-stream,", r, 2, b" bp"),
        5 => put_counted(out, at, b"worldfip-exchange,", r.a as u64, b" us\n"),
        6 => put_cells(out, at, b"worldfip-variable,", r, 1, b" us"),
        7 => put_cells(out, at, b"pnet-jitter-stream,", r, 4, b" bp"),
        8 => put_cells(out, at, b"pnet-edition,", r, 0, b""),
        9 => put_cells(out, at, b"profibus-ring,", r, 1, b" bp"),
        10 => put_cells(out, at, b"profibus-message,", r, 1, b" bp"),
        _ => text::put_word(out, at, b""),
    }
}
