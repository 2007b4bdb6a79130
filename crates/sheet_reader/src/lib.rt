// A sheet reader that walks the lent bytes record by record and keeps its place, page 01 'Sheet records'.
//
// The struct holds the sheet and a place. Its functions are thin: they take it apart and call `found_at` or `behind`, on a slice and a
// number. A caller with plain parameters has `first` and `count`.
#![tactic(auto)]

ghost use Rattle.std.specs.Prelude.{◌≡◌};
ghost use Rattle.sheet_reader.specs.Walk.{found_of, step_from, count as count_of};

use common::Refusal;
use sheet_record::{Met, record_at};

#[derive(Clone, Copy)]
pub struct Reader<'a> {
    pub src: &'a [u8],
    pub at: usize,
}

// What stands at a place: a record with the place just after it, the refusal that the bytes there show by themselves, or the end. Kept as an enum: the three are of one
// rank, and Option<Result<Met, Refusal>> is two enums in one another, which each reader has to take apart twice.
#[derive(Clone, Copy)]
pub enum Found {
    One(Met),
    Refused(Refusal),
    End,
}

// What stands at a place of a sheet.
pub fn found_at(s: &[u8], at: usize) -> Found
    ensures { result ≡ found_of s.now at }
{
    if s.len() <= at {
        return Found::End;
    }
    if !sheet_record::known(s[at]) {
        return Found::Refused(Refusal { no: 2, place: at });
    }
    let met = record_at(s, at);
    if met.next == at {
        return Found::Refused(Refusal { no: 1, place: at });
    }
    Found::One(met)
}

// The place just after the record that stands at a place of a sheet; where none stands, that place.
pub fn behind(s: &[u8], at: usize) -> usize
    ensures { result ≡ step_from s.now at }
{
    match found_at(s, at) {
        Found::One(met) => met.next,
        Found::Refused(_) => at,
        Found::End => at,
    }
}

// A reader at the first byte of a sheet.
pub fn new<'a>(src: &'a [u8]) -> Reader<'a>
    ensures { (result.src ≡ src.entry) × (result.at ≡ 0) }
{
    Reader { src, at: 0 }
}

// What stands at the reader's place.
pub fn next<'a>(r: Reader<'a>) -> Found
    ensures { result ≡ found_of r.entry.src.now r.entry.at }
{
    found_at(r.src, r.at)
}

// The reader's place.
pub fn at<'a>(r: Reader<'a>) -> usize
    ensures { result ≡ r.entry.at }
{
    r.at
}

// The reader at another place of the same sheet.
pub fn moved<'a>(r: Reader<'a>, at: usize) -> Reader<'a>
    ensures { (result.src ≡ r.entry.src) × (result.at ≡ at) }
{
    Reader { src: r.src, at }
}

// The reader behind the record that stands at its place; it stays where none stands.
pub fn step<'a>(r: Reader<'a>) -> Reader<'a>
    ensures { (result.src ≡ r.entry.src) × (result.at ≡ step_from r.entry.src.now r.entry.at) }
{
    let at = behind(r.src, r.at);
    Reader { src: r.src, at }
}

// What stands at the first byte of a sheet, for callers with plain parameters.
pub fn first(s: &[u8]) -> Found
    ensures { result ≡ found_of s.now 0 }
{
    next(new(s))
}

// Where a reader at a place of the sheet stands after a step.
fn step_from(s: &[u8], at: usize) -> usize
    ensures { result ≡ step_from s.now at }
{
    step(Reader { src: s, at }).at
}

// How many records stand whole one after the other from the first byte on: the steps of a reader, up to where it stays.
pub fn count(s: &[u8]) -> usize
    ensures { result ≡ count_of s.now }
{
    let mut n = 0;
    let mut at = 0;
    let mut next = step_from(s, at);
    while next != at {
        n += 1;
        at = next;
        next = step_from(s, at);
    }
    n
}
