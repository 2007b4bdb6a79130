// The bus of page 01, 'How a P-NET run goes', at its slowest: every stream asks once, at 0, when the token has just left master k;
// each reaction takes 7 bp and each message all of its C.
#![tactic(auto)]

ghost use Rattle.std.specs.Prelude.{◌≡◌, ◌≢◌, ◌↔◌, ℕ, IsTrue, true, ◌+◌, ◌≤◌, ◌<◌, ◌^◌, length, get_or};
ghost use Rattle.common.specs.Runs.{filled};
ghost use Rattle.pnet_run.specs.Run.{next};
ghost use Rattle.pnet_simulate.specs.Simulated.{oldest_of, bus_of, visited, visited_times, sound, simulated, response_of, largest_of};
ghost use Rattle.pnet_simulate.specs.Told.{segment_by, Told};

// Where a run stands: the token arrives at this instant, at this master.
#[derive(Clone, Copy)]
pub struct Stage {
    pub now: u64,
    pub master: u8,
}

// The master behind m of n.
fn behind(n: u8, m: u8) -> u8
    requires { (1 ≤ n) × (m ≤ n) }
    ensures { (result ≡ next n m) × (result ≤ n) }
{
    if m == n {
        return 1;
    }
    m + 1
}

// The place of master m's oldest request, counted from 0, and the number of streams where none waits.
fn oldest(owner: &[u8], answered: &[u64], m: u8) -> usize
    requires { length owner.now ≤ length answered.now }
    ensures { result ≡ oldest_of owner.now answered.now m }
{
    for p in 0..owner.len() {
        if owner[p] == m && answered[p] == 0 {
            return p;
        }
    }
    owner.len()
}

fn wide(x: u16) -> u64
    ensures { (result ≡ x) × (result < 65536) }
{
    x as u64
}

// One visit of the token: the oldest request is answered, or the token goes on.
fn visit(n: u8, owner: &[u8], cycle: &[u16], stage: Stage, answered: &mut [u64]) -> Stage
    requires { (1 ≤ n) × (stage.master ≤ n) × (stage.now < 2 ^ 63) × (length owner.now ≤ length cycle.now) × (length owner.now ≤ length answered.old) }
    ensures { (bus_of result answered.new ≡ visited n owner.now cycle.now (bus_of stage answered.old)) × (result.now ≤ stage.now + 65582) × (result.master ≤ n) }
{
    let m = stage.master;
    let p = oldest(owner, answered, m);
    if p < owner.len() {
        let end = stage.now + 7 + wide(cycle[p]);
        answered[p] = end;
        Stage {
            now: end + 40,
            master: behind(n, m),
        }
    } else {
        Stage {
            now: stage.now + 10,
            master: behind(n, m),
        }
    }
}

// Each of the first n streams has a C that isn't 0.
fn have_cycles(cycle: &[u16], n: usize) -> bool
    requires { n ≤ length cycle.now }
    ensures { IsTrue result ↔ ((p : ℕ) → p < n → get_or cycle.now p 0 ≢ 0) }
{
    cycle[..n].iter().all(|c| *c != 0)
}

// There is a run to simulate.
fn is_sound(n: u8, owner: &[u8], cycle: &[u16], k: u8, room: usize) -> bool
    ensures { result ≡ sound n owner.now cycle.now k room }
{
    if k < 1 {
        return false;
    }
    if n < k {
        return false;
    }
    if cycle.len() < owner.len() {
        return false;
    }
    if room < owner.len() {
        return false;
    }
    have_cycles(cycle, owner.len())
}

// Every one of n requests waits.
fn clear(answered: &mut [u64], n: usize)
    requires { n ≤ length answered.old }
    ensures { answered.new ≡ filled (λ p. 0) n answered.old }
{
    answered[..n].fill(0);
}

// So many visits, one after the other.
fn go_on(
    n: u8,
    owner: &[u8],
    cycle: &[u16],
    from: Stage,
    visits: u32,
    answered: &mut [u64],
) -> Stage
    requires { (1 ≤ n) × (from.master ≤ n) × (from.now ≤ 40) × (length owner.now ≤ length cycle.now) × (length owner.now ≤ length answered.old) }
    ensures { bus_of result answered.new ≡ visited_times n owner.now cycle.now (bus_of from answered.old) visits }
{
    let mut stage = from;
    for _ in 0..visits {
        stage = visit(n, owner, cycle, stage, answered);
    }
    stage
}

// Stream p is of master owner[p] and has the longest cycle cycle[p]. Where the bus stands after so many visits from when the token
// has just left master k of n; answered then holds each stream's completion, 0 for one that still waits. All 0, and answered
// as it was, where there is no such run.
pub fn simulate(
    n: u8,
    owner: &[u8],
    cycle: &[u16],
    k: u8,
    visits: u32,
    answered: &mut [u64],
) -> Stage
    ensures answered_after { bus_of result answered.new ≡ simulated n owner.now cycle.now k visits answered.old }
    ensures runs { sound n owner.now cycle.now k (length answered.old) ≡ true → Told (segment_by n owner.now cycle.now) (bus_of result answered.new) }
{
    if !is_sound(n, owner, cycle, k, answered.len()) {
        return Stage { now: 0, master: 0 };
    }
    clear(answered, owner.len());
    let first = Stage {
        now: 40,
        master: behind(n, k),
    };
    go_on(n, owner, cycle, first, visits, answered)
}

// The response of stream p, where it is master k's, else 0.
fn response(owner: &[u8], answered: &[u64], k: u8, p: usize) -> u64
    requires { p < length owner.now }
    ensures { result ≡ response_of owner.now answered.now k p }
{
    if owner[p] == k {
        if p < answered.len() {
            return answered[p];
        }
    }
    0
}

// Master k's largest response, of those that answered holds.
pub fn largest(owner: &[u8], answered: &[u64], k: u8) -> u64
    ensures { result ≡ largest_of owner.now answered.now k }
{
    let mut longest: u64 = 0;
    for p in 0..owner.len() {
        longest = longest.max(response(owner, answered, k, p));
    }
    longest
}
