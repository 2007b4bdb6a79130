// The P-NET planner, page 01 'P-NET bounds'.
#![tactic(auto)]

pub mod answer;

ghost use Rattle.std.specs.Prelude.{◌≡◌, ℕ, ◌*◌, ◌≤◌, ◌<◌, length};
ghost use Rattle.sheet_record.specs.Kinds.{pnet};
ghost use Rattle.sheet_rules.specs.Ready.{Ready};
ghost use Rattle.pnet_rules.specs.Segment;
ghost use Rattle.pnet_rules.specs.Refined;
ghost use Rattle.pnet_plan.specs.Planned.{first_late, planned, plan_of, run_of};
ghost use Rattle.pnet_turn.specs.Turn.{at, charged_in};
ghost use Rattle.pnet_plan.specs.Arrays.{segment_in, Sheeted, SetOut, Grouped};

pub use answer::Plan;
use common::Refusal;
use sheet_read::MOST;
use units::BitPeriods;

// The longest spacing of a sheet.
const LONGEST: u32 = 1000000000;

// The streams of a small sheet.
const FEW: usize = 64;

// Room for their pairs: T and J of a stream stand side by side.
const FEW_PAIRED: usize = 2 * FEW;

// Room for the pairs of the largest sheet.
const MOST_PAIRED: usize = 2 * MOST;

// Sets out the n masters: what each one is charged under an edition, and the place where the pairs of its streams begin, behind those of the
// masters before it.
fn set_out(
    counts: &[u8; 33],
    longests: &[u32; 33],
    n: usize,
    edition: u32,
    charges: &mut [u32; 33],
    ends: &mut [u32; 33],
)
    requires n_bound { (n ≤ 32) × ((y : ℕ) → y ≤ 32 → at counts.now y ≤ 80) × ((y : ℕ) → y ≤ 32 → at longests.now y ≤ 1548) }
    requires charges_len { (length charges.old ≡ 33) × (length ends.old ≡ 33) }
    ensures { SetOut counts.now (charged_in counts.now longests.now n edition) n charges.new ends.new }
{
    let floor = pnet_turn::floor_of(counts, longests, n, edition);
    let mut end: u32 = 0;
    for y in 1..n + 1 {
        let count = counts[y];
        let charge = pnet_turn::charge_of(count, BitPeriods(longests[y]), floor);
        charges[y] = charge.0;
        ends[y] = end;
        end += count as u32;
    }
}

// Goes over the streams once. Answers the first whose master's R is above its D, and the number past the last where there is none: then the
// pairs of T and J stand by master, each master's in sheet order up to its end, with its slack, the least T - J of them, beside.
fn place(
    s: &[u8],
    first: usize,
    streams: usize,
    counts: &[u8; 33],
    turn: u32,
    ends: &mut [u32; 33],
    slacks: &mut [u32; 33],
    pairs: &mut [u32],
) -> usize
    requires ready { Ready s.now pnet first streams × (2 * streams ≤ length pairs.old) }
    requires turn_value { (turn ≡ Segment.turn (segment_in s.now)) × ((y : ℕ) → y ≤ 32 → at counts.now y ≡ Segment.count (segment_in s.now) y) }
    requires grouped { Grouped (segment_in s.now) 0 ends.old slacks.old pairs.old }
    ensures { (result ≡ first_late (segment_in s.now)) × (streams < result → Grouped (segment_in s.now) streams ends.new slacks.new pairs.new) }
{
    let mut at = first;
    for i in 0..streams {
        let met = sheet_record::pnet_stream_at(s, at);
        let r = met.found;
        let m = r.a as usize;
        let bound = counts[m] as u32 * turn;
        if r.d < bound {
            return i + 1;
        }
        let end = ends[m];
        let p = 2 * end as usize;
        pairs[p] = r.c;
        pairs[p + 1] = r.e;
        ends[m] = end + 1;
        slacks[m] = slacks[m].min(r.c - r.e);
        at = met.next;
    }
    streams + 1
}

// The plan of a P-NET sheet with n masters and `streams` streams, the first at a place, where the runs are long enough and there is room
// for a pair of each stream.
fn plan_segment(
    s: &[u8],
    n: usize,
    streams: usize,
    first: usize,
    counts: &[u8; 33],
    longests: &[u32; 33],
    pairs: &mut [u32],
    bound: &mut [u32],
    refined: &mut [u32],
    rounds: &mut [u32],
) -> Result<Plan, Refusal>
    requires sheeted { Sheeted s.now n streams first counts.now longests.now × (2 * streams ≤ length pairs.old) }
    requires n_in_bounds { (n ≤ length bound.old) × (n ≤ length refined.old) × (n ≤ length rounds.old) }
    ensures { let outcome = planned s.now (length bound.old) (length refined.old) (length rounds.old) in
        (result ≡ plan_of outcome)
        × (bound.new ≡ run_of outcome Segment.bound bound.old)
        × (refined.new ≡ run_of outcome Refined.refined refined.old)
        × (rounds.new ≡ run_of outcome Refined.rounds rounds.old) }
{
    let mut charges = [0u32; 33];
    let mut ends = [0u32; 33];
    let mut slacks = [LONGEST; 33];
    let edition = sheet_read::edition(s);
    let turn = pnet_turn::turn_of(counts, longests, n, edition);
    set_out(counts, longests, n, edition, &mut charges, &mut ends);
    let late = place(
        s,
        first,
        streams,
        counts,
        turn.0,
        &mut ends,
        &mut slacks,
        pairs,
    );
    if late <= streams {
        return Err(Refusal { no: 8, place: late });
    }
    pnet_search::fill(
        counts, &charges, &ends, &slacks, pairs, n, turn, bound, refined, rounds,
    );
    Ok(Plan {
        masters: n,
        streams,
    })
}

// The plan of a sheet: R, W and rounds of masters 1..N into the first N places of the three runs, which keep what they had on a refusal.
pub fn plan(
    s: &[u8],
    bound: &mut [u32],
    refined: &mut [u32],
    rounds: &mut [u32],
) -> Result<Plan, Refusal>
    ensures { let outcome = planned s.now (length bound.old) (length refined.old) (length rounds.old) in
        (result ≡ plan_of outcome)
        × (bound.new ≡ run_of outcome Segment.bound bound.old)
        × (refined.new ≡ run_of outcome Refined.refined refined.old)
        × (rounds.new ≡ run_of outcome Refined.rounds rounds.old) }
{
    let mut counts: [u8; 33] = [0; 33];
    let mut longests: [u32; 33] = [0; 33];
    let sheet = sheet_read::read_gathering(s, &mut counts, &mut longests)?;
    if sheet_record::bus_of(sheet.head.kind) != 1 {
        return Err(Refusal { no: 3, place: 0 });
    }
    let n = sheet.head.a as usize;
    if bound.len() < n || refined.len() < n || rounds.len() < n {
        return Err(Refusal { no: 13, place: n });
    }
    let streams = sheet.streams;
    let first = sheet.first;
    // Little is cleared for a small sheet.
    if streams <= FEW {
        let mut few = [0u32; FEW_PAIRED];
        return plan_segment(
            s, n, streams, first, &counts, &longests, &mut few, bound, refined, rounds,
        );
    }
    let mut most = [0u32; MOST_PAIRED];
    plan_segment(
        s, n, streams, first, &counts, &longests, &mut most, bound, refined, rounds,
    )
}
