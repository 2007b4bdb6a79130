// The P-NET planner that sends urgent requests first, page 02 'Ask 11'.
#![tactic(auto)]

ghost use Rattle.std.specs.Prelude.{◌≡◌, ℕ, ◌+◌, ◌-◌, ◌*◌, ◌≤◌, ◌<◌, min, eqb, length};
ghost use Rattle.common.specs.Runs.{filled};
ghost use Rattle.common.specs.Sums.{first_of};
ghost use Rattle.sheet_record.specs.Kinds.{pnet};
ghost use Rattle.sheet_rules.specs.Ready.{Ready};
ghost use Rattle.pnet_turn.specs.Turn.{at};
ghost use Rattle.pnet_plan.specs.Arrays.{segment_in, Sheeted};
ghost use Rattle.pnet_plan.specs.Planned.{plan_of};
ghost use Rattle.pnet_bounds.specs.Bounded.{stream_run};
ghost use Rattle.pnet_rules.specs.Segment;
ghost use Rattle.pnet_urgent_rules.specs.Urgent;
ghost use Rattle.pnet_urgent_rules.specs.Planned.{urgently};
ghost use Rattle.pnet_urgent.specs.Masters.{Keyed, Ranged, Gathered, Spread, Searched, Served, Solved};

use common::Refusal;
use pnet_plan::Plan;
use sheet_read::MOST;

// The most streams of one master.
const OWN: usize = 80;

// A key is a stream's D times this, and its place in the sheet, from 0.
const PLACES: u64 = 1024;

// T, J and D of n streams of one master, the first key at `start`, in order of urgency.
fn gather(
    keys: &[u64],
    start: usize,
    n: usize,
    spacings: &[u32],
    jitters: &[u32],
    ts: &mut [u32],
    js: &mut [u32],
    ds: &mut [u32],
)
    requires keyed { Keyed keys.now start n (min (length spacings.now) (length jitters.now)) × ((r : ℕ) → r < n → at keys.now (start + r) < 1024 * 1000000001) }
    requires n_in_bounds { (n ≤ length ts.old) × (n ≤ length js.old) × (n ≤ length ds.old) }
    ensures { Gathered keys.now spacings.now jitters.now start n ts.new js.new ds.new }
{
    for r in 0..n {
        let key = keys[start + r];
        let i = (key % PLACES) as usize;
        ts[r] = spacings[i];
        js[r] = jitters[i];
        ds[r] = (key / PLACES) as u32;
    }
}

// What the search found goes to the places of the n streams: each one's place in order, its x and its rounds. turn is V.
fn spread(
    keys: &[u64],
    start: usize,
    n: usize,
    turn: u32,
    slots: &[u32],
    turns: &[u32],
    places: &mut [u32],
    figures: &mut [u32],
    rounds: &mut [u32],
)
    requires keyed { Keyed keys.now start n (min (length places.old) (min (length figures.old) (length rounds.old))) }
    requires n_in_bounds { (n ≤ length slots.now) × (n ≤ length turns.now) × ((r : ℕ) → r < n → turn * at slots.now r ≤ 1000000000) }
    ensures { Spread keys.now start n (λ r. r + 1) places.old places.new
        × Spread keys.now start n (λ r. turn * at slots.now r) figures.old figures.new
        × Spread keys.now start n (at turns.now) rounds.old rounds.new }
{
    for r in 0..n {
        let key = keys[start + r];
        let i = (key % PLACES) as usize;
        places[i] = r as u32 + 1;
        figures[i] = turn * slots[r];
        rounds[i] = turns[r];
    }
}

// The search for one master's n streams, in slots and rounds.
fn search(
    keys: &[u64],
    start: usize,
    n: usize,
    spacings: &[u32],
    jitters: &[u32],
    turn: u32,
    slots: &mut [u32],
    turns: &mut [u32],
)
    requires keyed { Keyed keys.now start n (min (length spacings.now) (length jitters.now)) × Ranged keys.now spacings.now jitters.now start n turn }
    requires n_in_bounds { (n ≤ length slots.old) × (n ≤ length turns.old) }
    ensures { Searched keys.now spacings.now jitters.now start n turn slots.new turns.new }
{
    let mut ts = [0u32; OWN];
    let mut js = [0u32; OWN];
    let mut ds = [0u32; OWN];
    gather(keys, start, n, spacings, jitters, &mut ts, &mut js, &mut ds);
    pnet_urgent_search::search(turn, &ts[..n], &js[..n], &ds[..n], slots, turns);
}

// The figures of one master's n streams, the first key at `start`: each stream's place in order, x and rounds, to its place in the runs.
fn serve(
    keys: &[u64],
    start: usize,
    n: usize,
    spacings: &[u32],
    jitters: &[u32],
    turn: u32,
    places: &mut [u32],
    figures: &mut [u32],
    rounds: &mut [u32],
)
    requires keyed { Keyed keys.now start n (min (length spacings.now) (length jitters.now)) × Ranged keys.now spacings.now jitters.now start n turn }
    requires keyed_2 { Keyed keys.now start n (min (length places.old) (min (length figures.old) (length rounds.old))) }
    ensures { Served keys.now spacings.now jitters.now start n turn places.old figures.old rounds.old places.new figures.new rounds.new }
{
    let mut slots = [0u32; OWN];
    let mut turns = [0u32; OWN];
    search(
        keys, start, n, spacings, jitters, turn, &mut slots, &mut turns,
    );
    spread(
        keys, start, n, turn, &slots, &turns, places, figures, rounds,
    );
}

// The figures of all streams of a P-NET sheet of N masters and n streams, master by master; x is 0 where a stream is not accepted.
fn solve(
    s: &[u8],
    all: usize,
    first: usize,
    n: usize,
    counts: &[u8; 33],
    turn: u32,
    places: &mut [u32],
    figures: &mut [u32],
    rounds: &mut [u32],
)
    requires ready { Ready s.now pnet first n × (all ≡ Segment.Segment.masters (segment_in s.now)) × ((y : ℕ) → y ≤ 32 → at counts.now y ≡ Segment.count (segment_in s.now) y) }
    requires turn_value { (turn ≡ Segment.turn (segment_in s.now)) × (n ≤ length places.old) × (n ≤ length figures.old) × (n ≤ length rounds.old) }
    ensures { Solved (segment_in s.now) all places.new figures.new rounds.new }
{
    let mut ends = [0u32; 33];
    let mut keys = [0u64; MOST];
    let mut spacings = [0u32; MOST];
    let mut jitters = [0u32; MOST];
    pnet_urgent_order::order(
        s,
        first,
        n,
        counts,
        all,
        &mut ends,
        &mut keys,
        &mut spacings,
        &mut jitters,
    );
    for y in 1..=all {
        let own = counts[y] as usize;
        let start = ends[y] as usize - own;
        serve(
            &keys, start, own, &spacings, &jitters, turn, places, figures, rounds,
        );
    }
}

// The first of n streams whose x is 0, and n + 1 where there is none.
fn first_unmet(figures: &[u32], n: usize) -> usize
    requires { n ≤ length figures.now }
    ensures { result ≡ first_of (λ i. eqb (at figures.now (i - 1)) 0) n 1 }
{
    let unmet = figures[..n].iter().position(|x| *x == 0);
    unmet.unwrap_or(n) + 1
}

// Copies the first n numbers of a run into another.
fn copy(from: &[u32], n: usize, to: &mut [u32])
    requires { (n ≤ length from.now) × (n ≤ length to.old) }
    ensures { to.new ≡ filled (at from.now) n to.old }
{
    to[..n].copy_from_slice(&from[..n]);
}

// The plan of a P-NET sheet of N masters and n streams, where the runs are long enough, unless 21 is given.
fn plan_segment(
    s: &[u8],
    all: usize,
    first: usize,
    n: usize,
    counts: &[u8; 33],
    longests: &[u32; 33],
    places: &mut [u32],
    figure: &mut [u32],
    rounds: &mut [u32],
) -> Result<Plan, Refusal>
    requires sheeted { Sheeted s.now all n first counts.now longests.now }
    requires n_in_bounds { (n ≤ length places.old) × (n ≤ length figure.old) × (n ≤ length rounds.old) }
    ensures { let outcome = urgently s.now (min (length places.old) (min (length figure.old) (length rounds.old))) in
        (result ≡ plan_of outcome)
        × (places.new ≡ stream_run outcome Urgent.place places.old)
        × (figure.new ≡ stream_run outcome Urgent.figure figure.old)
        × (rounds.new ≡ stream_run outcome Urgent.rounds rounds.old) }
{
    let mut ranks = [0u32; MOST];
    let mut figures = [0u32; MOST];
    let mut turns = [0u32; MOST];
    let edition = sheet_read::edition(s);
    let turn = pnet_turn::turn_of(counts, longests, all, edition).0;
    solve(
        s,
        all,
        first,
        n,
        counts,
        turn,
        &mut ranks,
        &mut figures,
        &mut turns,
    );
    let unmet = first_unmet(&figures, n);
    if unmet <= n {
        return Err(Refusal {
            no: 21,
            place: unmet,
        });
    }
    copy(&ranks, n, places);
    copy(&figures, n, figure);
    copy(&turns, n, rounds);
    Ok(Plan {
        masters: all,
        streams: n,
    })
}

// The plan of a sheet: the place in its master's order, x and rounds of streams 1..n into the first n places of the three runs, which keep what they had on a refusal.
pub fn plan(
    s: &[u8],
    places: &mut [u32],
    figure: &mut [u32],
    rounds: &mut [u32],
) -> Result<Plan, Refusal>
    ensures { let outcome = urgently s.now (min (length places.old) (min (length figure.old) (length rounds.old))) in
        (result ≡ plan_of outcome)
        × (places.new ≡ stream_run outcome Urgent.place places.old)
        × (figure.new ≡ stream_run outcome Urgent.figure figure.old)
        × (rounds.new ≡ stream_run outcome Urgent.rounds rounds.old) }
{
    let mut counts: [u8; 33] = [0; 33];
    let mut longests: [u32; 33] = [0; 33];
    let sheet = sheet_read::read_gathering(s, &mut counts, &mut longests)?;
    if sheet_record::bus_of(sheet.head.kind) != 1 {
        return Err(Refusal { no: 3, place: 0 });
    }
    let streams = sheet.streams;
    if places.len() < streams || figure.len() < streams || rounds.len() < streams {
        return Err(Refusal {
            no: 13,
            place: streams,
        });
    }
    plan_segment(
        s,
        sheet.head.a as usize,
        sheet.first,
        streams,
        &counts,
        &longests,
        places,
        figure,
        rounds,
    )
}
