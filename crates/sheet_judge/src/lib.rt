// One record of a sheet judged by itself, page 01 'Numbered refusals' 2, 3, 1, 4: what stands at a place, whether it is right there, whole and in range.
#![tactic(auto)]

ghost use Rattle.std.specs.Prelude.{◌≡◌, ◌&&◌, eqb, get_or};
ghost use Rattle.sheet_record.specs.Kinds.{pnet, known, is_stream_of, in_range, stream_met};
ghost use Rattle.common.specs.Checks.{unless_no};
ghost use Rattle.sheet_judge.specs.Own.{own_no, as_bus};

use common::Refusal;
use sheet_record::{Given, Met, Record};

// Judges a record at a place by itself: refused with 2, 3, 1 or 4, in this order. This and what else the reader asks of each record is taken in where it is called
// (`inline`): the loop of each bus is its own then, with what the other buses need left out.
#[inline(always)]
pub fn judge(kind: u8, right: bool, whole: bool, ranged: bool, place: usize) -> Result<(), Refusal>
    ensures { result ≡ unless_no (own_no (known kind) right whole ranged) place }
{
    if !sheet_record::known(kind) {
        return Err(Refusal { no: 2, place });
    }
    if !right {
        return Err(Refusal { no: 3, place });
    }
    if !whole {
        return Err(Refusal { no: 1, place });
    }
    if !ranged {
        return Err(Refusal { no: 4, place });
    }
    Ok(())
}

// A stream of a bus is of this kind. A number that is no bus counts for WorldFIP here and below: with an arm for it, the planners were slower.
#[inline(always)]
pub fn is_stream(bus: u8, kind: u8) -> bool
    ensures { result ≡ is_stream_of (as_bus bus) kind }
{
    match bus {
        1 => sheet_record::is_pnet_stream(kind),
        3 => kind == 4,
        _ => kind == 6,
    }
}

// The stream of a bus at a place. The bus is a constant in each arm, so that the compiler makes a reader of its own for each.
#[inline(always)]
pub fn stream_at(s: &[u8], at: usize, bus: u8) -> Met
    ensures { result ≡ stream_met s.now at (as_bus bus) }
{
    match bus {
        1 => sheet_record::pnet_stream_at(s, at),
        3 => sheet_record::ring_stream_at(s, at),
        _ => sheet_record::variable_at(s, at),
    }
}

// A P-NET stream with every field in its range, with release jitter or without.
fn pnet_in_range(given: Given, r: Record) -> bool
    ensures { result ≡ (is_stream_of pnet r.kind && in_range given r) }
{
    if r.kind == 7 {
        return sheet_ranges::in_range_of(7, given, r);
    }
    sheet_ranges::in_range_of(2, given, r)
}

// A stream of a bus with every field in its range.
#[inline(always)]
pub fn stream_in_range(bus: u8, given: Given, r: Record) -> bool
    ensures { result ≡ (is_stream_of (as_bus bus) r.kind && in_range given r) }
{
    match bus {
        1 => pnet_in_range(given, r),
        3 => sheet_ranges::in_range_of(4, given, r),
        _ => sheet_ranges::in_range_of(6, given, r),
    }
}

// A record of this kind begins at a place. Past the sheet's end stands none, which is kind 0.
pub fn stands(s: &[u8], at: usize, kind: u8) -> bool
    ensures { result ≡ eqb (get_or s.now at 0) kind }
{
    if s.len() <= at {
        return 0 == kind;
    }
    s[at] == kind
}
