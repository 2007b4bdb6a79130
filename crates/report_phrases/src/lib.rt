// What every report says in the same words, page 01 'Sheets worked by hand': counts with their unit, masters' names, refusals. Each
// function writes into a lent run from a place on and answers the place just after; what does not fit is left out.
#![tactic(auto)]

ghost use Rattle.std.specs.Prelude.{◌++◌};
ghost use Rattle.text.specs.Text.{Wrote};
ghost use Rattle.report_phrases.specs.Phrases.{in_bp, in_us, in_ns, in_both, two_counts, name_of, whose_text, place_text, refused_text, refusal_text};

use text::{put_counted, put_places, put_word};
use units::{BitPeriods, Micros, Nanos};

// How many bytes a report has, of what is accepted and of what is refused. An enum and no Result: a refusal's report is a report, and no error.
#[derive(Clone, Copy)]
pub enum Reported {
    Accepted(usize),
    Refused(usize),
}

pub fn put_bp(out: &mut [u8], at: usize, before: &[u8], b: BitPeriods) -> usize
    ensures { Wrote out.old at (before.now ++ in_bp b) out.new result }
{
    put_counted(out, at, before, b.0 as u64, b" bp")
}

pub fn put_us(out: &mut [u8], at: usize, before: &[u8], u: Micros) -> usize
    ensures { Wrote out.old at (before.now ++ in_us u) out.new result }
{
    put_counted(out, at, before, u.0, b" us")
}

pub fn put_ns(out: &mut [u8], at: usize, before: &[u8], n: Nanos) -> usize
    ensures { Wrote out.old at (before.now ++ in_ns n) out.new result }
{
    put_counted(out, at, before, n.0, b" ns")
}

// A P-NET count in bp and in ns.
pub fn put_both(out: &mut [u8], at: usize, before: &[u8], b: BitPeriods) -> usize
    ensures { Wrote out.old at (before.now ++ in_both b) out.new result }
{
    let next = put_bp(out, at, before, b);
    put_ns(out, next, b" ", units::nanos_up(b))
}

// Two P-NET counts, each behind its words.
pub fn put_two(
    out: &mut [u8],
    at: usize,
    first: &[u8],
    a: BitPeriods,
    second: &[u8],
    b: BitPeriods,
) -> usize
    ensures { Wrote out.old at (two_counts first.now a second.now b) out.new result }
{
    let next = put_both(out, at, first, a);
    put_both(out, next, second, b)
}

pub fn put_name(out: &mut [u8], at: usize, k: u64) -> usize
    ensures { Wrote out.old at (name_of k) out.new result }
{
    let number = put_word(out, at, b"M");
    put_places(out, number, 2, k)
}

// The number and the master of a stream.
pub fn put_whose(out: &mut [u8], at: usize, number: u64, master: u8) -> usize
    ensures { Wrote out.old at (whose_text number master) out.new result }
{
    let name = put_counted(out, at, b"stream ", number, b" ");
    put_name(out, name, master as u64)
}

// A refusal's place in words, and what follows it.
fn put_place(out: &mut [u8], at: usize, number: u8, place: u64, after: &[u8]) -> usize
    ensures { Wrote out.old at (place_text number place ++ after.now) out.new result }
{
    if (number <= 7) | (number == 20) {
        return put_counted(out, at, b" at byte ", place, after);
    }
    if (number <= 9) | (number == 21) {
        return put_counted(out, at, b" at stream ", place, after);
    }
    if number == 12 {
        return put_counted(out, at, b" at variable ", place, after);
    }
    if number == 23 {
        return put_counted(out, at, b" at line ", place, after);
    }
    put_word(out, at, after)
}

// A refusal, and what follows it on its line.
pub fn put_refused(out: &mut [u8], at: usize, number: u8, place: u64, after: &[u8]) -> usize
    ensures { Wrote out.old at (refused_text number place ++ after.now) out.new result }
{
    let next = put_counted(out, at, b"refused ", number as u64, b"");
    put_place(out, next, number, place, after)
}

// A refusal's whole line.
pub fn put_refusal(out: &mut [u8], at: usize, number: u8, place: u64) -> usize
    ensures { Wrote out.old at (refusal_text number place) out.new result }
{
    put_refused(out, at, number, place, b"\n")
}
