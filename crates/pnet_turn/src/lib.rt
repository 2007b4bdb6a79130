// The turn of the token, page 01 'P-NET bounds': H and V, from what reading a sheet gathered of its masters; and what a master is charged under an
// edition, page 02 'Ask 10'.
#![tactic(auto)]

ghost use Rattle.std.specs.Prelude.{◌≡◌, ◌≤◌, eqb};
ghost use Rattle.common.specs.Sums.{when};
ghost use Rattle.units.specs.Units.{capped};
ghost use Rattle.pnet_rules.specs.Segment.{charge};
ghost use Rattle.pnet_turn.specs.Turn.{largest_in, turn_of, floor_of, charge_of};

use units::BitPeriods;

// A sum as a count of bp. No sheet has one that 32 bits do not hold; any other is the greatest count that there is.
fn narrow(n: u64) -> BitPeriods
    ensures { result ≡ capped n }
{
    BitPeriods(n.min(u32::MAX as u64) as u32)
}

// H in 64 bits, to be added up.
fn hold_of(count: u8, longest: u32) -> u64
    ensures { (result ≡ charge count longest) × (result ≤ 4294967342) }
{
    if count == 0 { 10 } else { 47 + longest as u64 }
}

// What no master is charged less than, in 64 bits: under edition 2 the largest H of masters 1..n, at most 32; else nothing.
fn least_of(counts: &[u8; 33], longests: &[u32; 33], n: usize, edition: u32) -> u64
    ensures { (result ≡ when (eqb edition 2) (largest_in counts.now longests.now n)) × (result ≤ 4294967342) }
{
    if edition != 2 {
        return 0;
    }
    let last = n.min(32);
    let mut least: u64 = 0;
    for y in 1..last + 1 {
        least = hold_of(counts[y], longests[y]).max(least);
    }
    least
}

// The same as a count of bp: place y has how many streams master y has, and the longest cycle of them.
pub fn floor_of(counts: &[u8; 33], longests: &[u32; 33], n: usize, edition: u32) -> BitPeriods
    ensures { result ≡ floor_of counts.now longests.now n edition }
{
    narrow(least_of(counts, longests, n, edition))
}

// What a master is charged that has so many streams, of which the longest cycle is given: its H, but no less than the floor.
pub fn charge_of(count: u8, longest: BitPeriods, floor: BitPeriods) -> BitPeriods
    ensures { result ≡ charge_of count longest floor }
{
    narrow(hold_of(count, longest.0).max(floor.0 as u64))
}

// V of masters 1..n, at most 32, under an edition.
pub fn turn_of(counts: &[u8; 33], longests: &[u32; 33], n: usize, edition: u32) -> BitPeriods
    ensures { result ≡ turn_of counts.now longests.now n edition }
{
    let least = least_of(counts, longests, n, edition);
    let top = n.min(32);
    let mut turn: u64 = 0;
    for y in 1..top + 1 {
        turn += hold_of(counts[y], longests[y]).max(least);
    }
    narrow(turn)
}
