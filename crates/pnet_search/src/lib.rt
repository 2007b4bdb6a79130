// The refined search, page 01 'P-NET bounds': R, W and rounds of a segment's masters, from the arrays in which the planner sets the segment out.
#![tactic(auto)]

ghost use Rattle.std.specs.Prelude.{◌≡◌, ℕ, ◌+◌, ◌-◌, ◌*◌, ◌≤◌, ◌<◌, min, length};
ghost use Rattle.common.specs.Runs.{filled};
ghost use Rattle.pnet_turn.specs.Turn.{at};
ghost use Rattle.pnet_search.specs.Arrays.{asked_in, asked_at, bound_in, right_in, rounds_in, refined_in, Spaced, Served, Kept, Slack, Opens, Fresh};

use units::BitPeriods;

// W of a master, and its rounds.
#[derive(Clone, Copy)]
struct Found {
    refined: u32,
    rounds: u32,
}

// What a look at a master's streams shows: min(s, a(y)), and the longest window in which it is the same.
#[derive(Clone, Copy)]
struct Looked {
    asked: u32,
    until: u32,
}

// What is saved at a master, and the last W at which it is the same.
#[derive(Clone, Copy)]
struct Saving {
    saved: u32,
    until: u32,
}

// No W and no window is as long.
const NEVER: u32 = 4294967295;

// A look at n streams from a place, in a window, to which each adds its J (page 02, Ask 7). More than s requests change nothing, whatever the
// window; else the count is the same until the first of the streams asks once more.
fn look(pairs: &[u32], from: usize, n: usize, window: u32, s: u32) -> Looked
    requires { Spaced pairs.now from n × (n ≤ 80) × (window ≤ 8166400) × (s ≤ 80) }
    ensures { (result.asked ≤ s) × (window ≤ result.until) × ((v : ℕ) → window ≤ v → v ≤ result.until → result.asked ≡ min s (asked_in pairs.now from v n)) }
{
    let mut asked: u32 = 0;
    let mut until = NEVER;
    for j in 0..n {
        let p = 2 * (from + j);
        let t = pairs[p];
        let jitter = pairs[p + 1];
        let times = (window + jitter + (t - 1)) / t;
        asked += times;
        if s <= asked {
            return Looked {
                asked: s,
                until: NEVER,
            };
        }
        until = until.min(times * t - jitter);
    }
    Looked { asked, until }
}

// What a master with s streams saves at another one, y, at W. The window of y's requests is W and R(y), since a request of y may have waited
// that long when W begins (page 02, Ask 2); turn is V.
fn saving_at(
    counts: &[u8; 33],
    charges: &[u32; 33],
    ends: &[u32; 33],
    pairs: &[u32],
    turn: u32,
    y: usize,
    s: u32,
    w: u32,
) -> Saving
    requires { (turn ≤ 51040) × (s ≤ 80) × (w ≤ 4083200) × Served counts.now charges.now ends.now pairs.now y }
    ensures { (w ≤ result.until) × ((v : ℕ) → w ≤ v → v ≤ result.until → result.saved ≡ (s - min s (asked_at counts.now ends.now pairs.now turn y v)) * (at charges.now y - 10)) }
{
    let count = counts[y] as u32;
    let end = ends[y] as usize;
    let charge = charges[y];
    let bound = count * turn;
    let seen = look(pairs, end - count as usize, count as usize, w + bound, s);
    let saved = (s - seen.asked) * (charge - 10);
    let until = seen.until - bound;
    Saving { saved, until }
}

// What master k saves at y at W = 0. At a master with as many streams as k, and k is one, nothing, now or later: each of those counts at least
// once. At another each counts once until W and R(y) are longer than the slack of y, as no R is above a T - J. turn is V.
fn first_saving(
    counts: &[u8; 33],
    charges: &[u32; 33],
    slacks: &[u32; 33],
    turn: u32,
    y: usize,
    k: usize,
) -> Saving
    requires { (turn ≤ 51040) × (k ≤ 32) × (at counts.now k ≤ 80) × (y ≤ 32) × (at counts.now y ≤ 80) × (10 ≤ at charges.now y) × (at charges.now y ≤ 1595) × (at counts.now y * turn ≤ at slacks.now y) }
    ensures { Opens counts.now charges.now slacks.now turn k y result.saved result.until }
{
    let s = counts[k] as u32;
    let count = counts[y] as u32;
    let charge = charges[y];
    if s <= count {
        return Saving {
            saved: 0,
            until: NEVER,
        };
    }
    let bound = count * turn;
    let saved = (s - count) * (charge - 10);
    let until = slacks[y] - bound;
    Saving { saved, until }
}

// What master k saves at each of the n masters at W = 0.
fn begin(
    counts: &[u8; 33],
    charges: &[u32; 33],
    slacks: &[u32; 33],
    n: usize,
    turn: u32,
    k: usize,
    saved: &mut [u32; 33],
    until: &mut [u32; 33],
)
    requires n_bound { (n ≤ 32) × (turn ≤ 51040) × (k ≤ 32) × (at counts.now k ≤ 80) × (length saved.old ≡ 33) × (length until.old ≡ 33) }
    requires by_index { (y : ℕ) → 1 ≤ y → y ≤ n → (at counts.now y ≤ 80) × (10 ≤ at charges.now y) × (at charges.now y ≤ 1595) × (at counts.now y * turn ≤ at slacks.now y) }
    ensures { (length saved.new ≡ 33) × (length until.new ≡ 33) × ((y : ℕ) → 1 ≤ y → y ≤ n → Opens counts.now charges.now slacks.now turn k y (at saved.new y) (at until.new y)) }
{
    for y in 1..n + 1 {
        let first = first_saving(counts, charges, slacks, turn, y, k);
        saved[y] = first.saved;
        until[y] = first.until;
    }
}

// The right side for W of master k: its R less what is saved at every master. The streams of a master are looked at again only where what was
// saved there no longer holds at this W; turn is V.
fn right_of(
    counts: &[u8; 33],
    charges: &[u32; 33],
    ends: &[u32; 33],
    pairs: &[u32],
    n: usize,
    turn: u32,
    k: usize,
    w: u32,
    saved: &mut [u32; 33],
    until: &mut [u32; 33],
) -> u32
    requires le_k { (1 ≤ k) × (k ≤ n) × (w ≤ 4083200) × Kept n turn counts.now charges.now ends.now pairs.now }
    requires fresh { Fresh counts.now charges.now ends.now pairs.now n turn k w saved.old until.old }
    ensures value { result ≡ right_in counts.now charges.now ends.now pairs.now n k w }
    ensures fresh_2 { Fresh counts.now charges.now ends.now pairs.now n turn k w saved.new until.new }
{
    let s = counts[k] as u32;
    let mut all: u32 = 0;
    for y in 1..n + 1 {
        if until[y] < w {
            let again = saving_at(counts, charges, ends, pairs, turn, y, s, w);
            saved[y] = again.saved;
            until[y] = again.until;
        }
        all += saved[y];
    }
    s * turn - all
}

// The refined search of master k, from W = 0 to the first value that equals the next one; turn is V.
fn search(
    counts: &[u8; 33],
    charges: &[u32; 33],
    ends: &[u32; 33],
    slacks: &[u32; 33],
    pairs: &[u32],
    n: usize,
    turn: u32,
    k: usize,
) -> Found
    requires { (1 ≤ k) × (k ≤ n) × Kept n turn counts.now charges.now ends.now pairs.now × Slack n turn counts.now ends.now slacks.now pairs.now }
    ensures { (result.refined ≡ refined_in counts.now charges.now ends.now pairs.now n k) × (result.rounds ≡ rounds_in counts.now charges.now ends.now pairs.now n k) }
{
    let mut saved = [0u32; 33];
    let mut until = [0u32; 33];
    begin(counts, charges, slacks, n, turn, k, &mut saved, &mut until);
    let mut w: u32 = 0;
    let mut rounds: u32 = 0;
    loop {
        let next = right_of(
            counts, charges, ends, pairs, n, turn, k, w, &mut saved, &mut until,
        );
        if next == w {
            return Found { refined: w, rounds };
        }
        w = next;
        rounds += 1;
    }
}

// R, W and rounds of the n masters, into the three runs; turn is V. Only the planner calls it: what it asks for holds once the masters are set
// out and every stream is placed.
pub fn fill(
    counts: &[u8; 33],
    charges: &[u32; 33],
    ends: &[u32; 33],
    slacks: &[u32; 33],
    pairs: &[u32],
    n: usize,
    turn: BitPeriods,
    bound: &mut [u32],
    refined: &mut [u32],
    rounds: &mut [u32],
)
    requires kept { Kept n turn.0 counts.now charges.now ends.now pairs.now × Slack n turn.0 counts.now ends.now slacks.now pairs.now }
    requires n_in_bounds { (n ≤ length bound.old) × (n ≤ length refined.old) × (n ≤ length rounds.old) }
    ensures bound_after { bound.new ≡ filled (λ i. bound_in counts.now charges.now n (i + 1)) n bound.old }
    ensures refined_after { refined.new ≡ filled (λ i. refined_in counts.now charges.now ends.now pairs.now n (i + 1)) n refined.old }
    ensures rounds_after { rounds.new ≡ filled (λ i. rounds_in counts.now charges.now ends.now pairs.now n (i + 1)) n rounds.old }
{
    for i in 0..n {
        let k = i + 1;
        let r = counts[k] as u32 * turn.0;
        let found = search(counts, charges, ends, slacks, pairs, n, turn.0, k);
        bound[i] = r;
        refined[i] = found.refined;
        rounds[i] = found.rounds;
    }
}
