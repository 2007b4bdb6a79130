// The search for x of one master's streams, page 02 'Ask 11', in slots: x is V·n, n slots. The values of all the searches are read off one table, which is laid out a block of
// slots at a time.
#![tactic(auto)]

ghost use Rattle.std.specs.Prelude.{◌≡◌, ℕ, ◌+◌, ◌/◌, ◌≤◌, ◌<◌, min, length};
ghost use Rattle.pnet_turn.specs.Turn.{at};
ghost use Rattle.pnet_urgent_search.specs.Walks.{blocked_at, slots_for, Urgency, Found};
ghost use Rattle.pnet_urgent_search.specs.Steps.{Loaded, Shows, Walk, Starts, Block, Sound, Apart, Started, Carried, Walking, Ended};

use pnet_urgent_table::{lay, set_out};

// The whole bus, in parts that a stream's load is rounded down to.
const WHOLE: u64 = 1099511627776;

// The slots that the longest D holds.
const LONGEST: u32 = 20833333;

// Where a walk stands: its slot, 0 where no slot up to its D is a solution, and its rounds.
#[derive(Clone, Copy)]
struct Stood {
    slot: u32,
    rounds: u32,
}

// How many of the most urgent streams do not take the whole bus. Behind more than these no search ends: what the streams ahead ask for grows at least as fast as the time.
fn loaded(turn: u32, spacings: &[u32]) -> usize
    requires { (turn ≤ 51040) × ((j : ℕ) → j < length spacings.now → 1 ≤ at spacings.now j) }
    ensures { Loaded turn spacings.now (length spacings.now) result }
{
    let mut taken: u64 = 0;
    for (j, spacing) in spacings.iter().enumerate() {
        taken += turn as u64 * WHOLE / *spacing as u64;
        if WHOLE <= taken {
            return j;
        }
    }
    spacings.len()
}

// The slot at which the walk of the stream at place i starts. One that is not among the first `walks` has no solution; nor has one into whose D no slot fits, since every
// solution is at least one slot.
fn first_slot(turn: u32, deadline: u32, walks: usize, i: usize) -> u32
    ensures { Starts turn deadline walks i result }
{
    if walks <= i {
        return 0;
    }
    if deadline < turn { 0 } else { 1 }
}

// Starts the walk of each stream.
fn start(turn: u32, deadlines: &[u32], walks: usize, slots: &mut [u32], rounds: &mut [u32])
    requires { (length deadlines.now ≤ length slots.old) × (length deadlines.now ≤ length rounds.old) }
    ensures { Started turn deadlines.now walks (length deadlines.now) slots.old rounds.old slots.new rounds.new }
{
    for (i, deadline) in deadlines.iter().enumerate() {
        slots[i] = first_slot(turn, *deadline, walks, i);
        rounds[i] = 0;
    }
}

// What the right side of the stream at place i has beside the table: its own request, b, and one for each stream ahead.
fn own(i: usize, count: usize) -> u32
    requires { (i < count) × (count ≤ 80) }
    ensures { (result ≡ 1 + blocked_at count i + i) × (result ≤ 81) }
{
    let place = i as u32;
    if i + 1 == count { 1 + place } else { 2 + place }
}

// Carries a walk, at slot n after m rounds, through the block behind slot a, whose values c is added to. No value is below the one before, so one that is not above it is equal.
fn carry(turn: u32, deadline: u32, c: u32, table: &[u32], a: u32, n: u32, m: u32) -> Stood
    requires { (1 ≤ turn) × (c ≤ 81) × Block table.now a × Sound (deadline / turn) a n m }
    ensures { (result.slot ≤ deadline / turn) × ((f : ℕ → ℕ) → Shows f table.now a c (deadline / turn) → Walk f (deadline / turn) a n m → Walk f (deadline / turn) (a + 512) result.slot result.rounds) }
{
    let mut slot = n;
    let mut rounds = m;
    if slot <= a {
        return Stood { slot, rounds };
    }
    let most = deadline / turn;
    let end = a + 512;
    while slot <= end {
        let t = (slot - a - 1) as usize;
        let next = c + table[t];
        if next <= slot {
            return Stood { slot, rounds };
        }
        if most < next {
            return Stood { slot: 0, rounds };
        }
        slot = next;
        rounds += 1;
    }
    Stood { slot, rounds }
}

// Carries the first walks through the block behind slot a; the answer is the last slot at which one of them stands.
fn carry_all(
    turn: u32,
    deadlines: &[u32],
    walks: usize,
    table: &[u32],
    a: u32,
    slots: &mut [u32],
    rounds: &mut [u32],
) -> u32
    requires le_turn { (48 ≤ turn) × (length deadlines.now ≤ 80) × (walks ≤ length deadlines.now) × (walks ≤ length slots.old) × (walks ≤ length rounds.old) × Block table.now a }
    requires by_index { (i : ℕ) → i < walks → (at deadlines.now i ≤ 1000000000) × Sound (at deadlines.now i / turn) a (at slots.old i) (at rounds.old i) }
    ensures { Carried turn deadlines.now (length deadlines.now) table.now a walks slots.old rounds.old slots.new rounds.new result }
{
    let count = deadlines.len();
    let mut last: u32 = 0;
    for i in 0..walks {
        let c = own(i, count);
        let stood = carry(turn, deadlines[i], c, table, a, slots[i], rounds[i]);
        slots[i] = stood.slot;
        rounds[i] = stood.rounds;
        last = last.max(stood.slot);
    }
    last
}

// Carries the first walks through one block after the other, until none is behind the slots passed. The first k streams are laid out.
fn walk(
    turn: u32,
    spacings: &[u32],
    jitters: &[u32],
    deadlines: &[u32],
    k: usize,
    walks: usize,
    slots: &mut [u32],
    rounds: &mut [u32],
)
    requires urgency { Urgency turn spacings.now jitters.now deadlines.now (length spacings.now) × Loaded turn spacings.now (length spacings.now) k × (walks ≡ min (k + 1) (length spacings.now)) }
    requires walks_in_bounds { (walks ≤ length slots.old) × (walks ≤ length rounds.old) × Walking turn spacings.now jitters.now deadlines.now (length spacings.now) walks 0 slots.old rounds.old }
    ensures { Apart walks slots.old rounds.old slots.new rounds.new × Ended turn spacings.now jitters.now deadlines.now (length spacings.now) walks slots.new rounds.new }
{
    let mut nexts = [0u32; 80];
    let mut rests = [0u32; 80];
    let mut table = [0u32; 512];
    set_out(turn, spacings, jitters, k, &mut nexts, &mut rests);
    let mut base: u32 = 0;
    let mut last = LONGEST;
    let mut a: u32 = 0;
    while a < last {
        lay(
            turn, spacings, jitters, k, a, base, &mut nexts, &mut rests, &mut table,
        );
        last = carry_all(turn, deadlines, walks, &table, a, slots, rounds);
        base = table[511];
        a += 512;
    }
}

// x, in slots, and the rounds of each stream of one master: T, J and D stand in three runs, the most urgent first; turn is V. A stream without a solution that fits into its D
// has 0 for its slots. Only the planner calls it: what it asks for holds once the streams are put in order.
pub fn search(
    turn: u32,
    spacings: &[u32],
    jitters: &[u32],
    deadlines: &[u32],
    slots: &mut [u32],
    rounds: &mut [u32],
)
    requires { Urgency turn spacings.now jitters.now deadlines.now (length spacings.now) × (length spacings.now ≤ length slots.old) × (length spacings.now ≤ length rounds.old) }
    ensures by_index { (i : ℕ) → i < length spacings.now → Found (slots_for turn spacings.now jitters.now (length spacings.now) i) (at deadlines.now i / turn) (at slots.new i) (at rounds.new i) }
    ensures apart { Apart (length spacings.now) slots.old rounds.old slots.new rounds.new }
{
    let k = loaded(turn, spacings);
    // Those with at most k streams ahead have a walk.
    let walks = (k + 1).min(spacings.len());
    start(turn, deadlines, walks, slots, rounds);
    walk(turn, spacings, jitters, deadlines, k, walks, slots, rounds);
}
