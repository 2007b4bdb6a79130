// How often the streams of one master ask, laid out on one block of slots after the other, page 02 'Ask 11'. One function of the slot serves the search of every stream of the
// master; it is counted once, without a division for each slot.
#![tactic(auto)]

ghost use Rattle.std.specs.Prelude.{◌≡◌, ℕ, ◌+◌, ◌≤◌, ◌<◌, length};
ghost use Rattle.common.specs.Sums.{sum};
ghost use Rattle.pnet_turn.specs.Turn.{at};
ghost use Rattle.pnet_urgent_table.specs.Table.{queued, Slow, Due, Laid};
ghost use Rattle.pnet_urgent_table.specs.Tally.{Asking, Tallied, Risen};

// The slots of a block.
pub const BLOCK: usize = 512;

// What is kept of one stream between two blocks.
#[derive(Clone, Copy)]
struct Ahead {
    next: u32,
    rest: u32,
}

// Sets out the first k streams at slot 0: each asks once more when T - J has passed. turn is V.
pub fn set_out(
    turn: u32,
    spacings: &[u32],
    jitters: &[u32],
    k: usize,
    nexts: &mut [u32],
    rests: &mut [u32],
)
    requires { Slow turn spacings.now jitters.now k × (k ≤ length nexts.old) × (k ≤ length rests.old) }
    ensures { Due turn spacings.now jitters.now k 0 nexts.new rests.new }
{
    for j in 0..k {
        let jitter = jitters[j];
        let first = spacings[j] - jitter;
        nexts[j] = first / turn;
        rests[j] = first % turn;
    }
}

// Counts one more at each slot of the block behind slot a at which a stream asks once more, and tells what is kept of the stream behind the block. It does so every T: that many
// whole slots later, and one more where the parts of a slot make up a whole one. turn is V.
fn tally(turn: u32, spacing: u32, a: u32, kept: Ahead, table: &mut [u32]) -> Ahead
    requires le_turn { (48 ≤ turn) × (turn ≤ 51040) × (turn < spacing) × (spacing ≤ 1000000000) × (a ≤ 20833333) }
    requires a_le_next { (a ≤ kept.next) × (kept.next ≤ a + 20833333) × (kept.rest < turn) }
    requires table_len { (length table.old ≡ 512) × ((t : ℕ) → t < 512 → at table.old t < 4294967295) }
    ensures by_index { (J : ℕ) → Asking turn spacing J a kept.next kept.rest → Asking turn spacing J (a + 512) result.next result.rest }
    ensures by_index_2 { (J : ℕ) → Asking turn spacing J a kept.next kept.rest → Tallied turn spacing J a table.old table.new }
{
    let whole = spacing / turn;
    let part = spacing % turn;
    let end = a + BLOCK as u32;
    let mut next = kept.next;
    let mut rest = kept.rest;
    while next < end {
        let t = (next - a) as usize;
        table[t] += 1;
        next += whole;
        rest += part;
        if rest >= turn {
            rest -= turn;
            next += 1;
        }
    }
    Ahead { next, rest }
}

// Counts at each slot of the block behind slot a how many of the first k streams ask once more.
fn tally_all(
    turn: u32,
    spacings: &[u32],
    jitters: &[u32],
    k: usize,
    a: u32,
    nexts: &mut [u32],
    rests: &mut [u32],
    table: &mut [u32],
)
    requires slow { Slow turn spacings.now jitters.now k × (a ≤ 20833333) × Due turn spacings.now jitters.now k a nexts.old rests.old }
    requires table_len { (length table.old ≡ 512) × ((t : ℕ) → t < 512 → at table.old t ≡ 0) }
    ensures due { Due turn spacings.now jitters.now k (a + 512) nexts.new rests.new }
    ensures risen { Risen turn spacings.now jitters.now k a table.new }
{
    for j in 0..k {
        let next = nexts[j];
        let rest = rests[j];
        let ahead = tally(turn, spacings[j], a, Ahead { next, rest }, table);
        nexts[j] = ahead.next;
        rests[j] = ahead.rest;
    }
}

// Adds up a block from what stands in front of it.
fn add_up(base: u32, table: &mut [u32])
    requires { (length table.old ≡ 512) × ((t : ℕ) → t ≤ 512 → base + sum (at table.old) t ≤ 4294967295) }
    ensures { (t : ℕ) → t < 512 → at table.new t ≡ base + sum (at table.old) (t + 1) }
{
    let mut total = base;
    for x in table.iter_mut() {
        total += *x;
        *x = total;
    }
}

// Lays out the block behind slot a; base is Q at slot a, and turn is V.
pub fn lay(
    turn: u32,
    spacings: &[u32],
    jitters: &[u32],
    k: usize,
    a: u32,
    base: u32,
    nexts: &mut [u32],
    rests: &mut [u32],
    table: &mut [u32],
)
    requires slow { Slow turn spacings.now jitters.now k × (a ≤ 20833333) × (length table.old ≡ 512) }
    requires due { Due turn spacings.now jitters.now k a nexts.old rests.old × (base ≡ queued turn spacings.now jitters.now k a) }
    ensures due_2 { Due turn spacings.now jitters.now k (a + 512) nexts.new rests.new }
    ensures laid { Laid turn spacings.now jitters.now k a table.new }
{
    table.fill(0);
    tally_all(turn, spacings, jitters, k, a, nexts, rests, table);
    add_up(base, table);
}
