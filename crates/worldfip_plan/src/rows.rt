// The rows of a table from periods by rank, page 01 'WorldFIP table'.
ghost use Rattle.std.specs.Prelude.{◌≡◌, ℕ, ◌%◌, ◌≤◌, ◌<◌, eqb, length, get_or};
ghost use Rattle.std.specs.Int.Bits.{bit_or};
ghost use Rattle.common.specs.Sums.{when};
ghost use Rattle.common.specs.Runs.{filled};
ghost use Rattle.worldfip_rules.specs.Build.{by_rank, row};
ghost use Rattle.worldfip_plan.specs.Held.{Usable, Cleared, requests, given, missing};

use worldfip_sets::{row_of, single};

// ---- Requests

// Adds the set x to rows 0, p, 2p, .. of t, up to `rows`.
fn mark(p: usize, rows: usize, x: u64, t: &mut [u64])
    requires { (0 < p) × (p < 4294967296) × (rows < length t.old) × (rows ≤ 4096) }
    ensures { (m : ℕ) → m ≤ rows → get_or t.new m 0 ≡ bit_or (get_or t.old m 0) (when (eqb (m % p) 0) x) }
{
    // By the turns: `step_by` tests twice in each.
    for k in 0..rows / p + 1 {
        t[k * p] = t[k * p] | x;
    }
}

// The new requests of each row, the end of the last row included. Equal periods stand side by side by rank and are marked together;
// the 0 past the last rank ends the last group.
fn mark_all(q: &[u32], n: usize, rows: usize, t: &mut [u64])
    requires usable { Usable q.now n }
    requires cleared { Cleared t.old rows }
    ensures { (m : ℕ) → m ≤ rows → get_or t.new m 0 ≡ requests q.now n m }
{
    let mut group: u64 = 0;
    for r in 0..n {
        let p = q[r];
        group = group | single(r as u32);
        if q[r + 1] != p {
            mark(p as usize, rows, group, t);
            group = 0;
        }
    }
}

// ---- Rows

// Puts row m at t[m]. The answer is the set of variables that miss first, and the empty set if nobody misses.
pub(crate) fn build(q: &[u32], n: usize, s: u32, rows: usize, t: &mut [u64]) -> u64
    requires usable { Usable q.now n }
    requires cleared { Cleared t.old rows }
    ensures value { result ≡ missing (given q.now n s rows) }
    ensures m_after { result ≡ 0 → (m : ℕ) → m < rows → get_or t.new m 0 ≡ row (given q.now n s rows) by_rank m }
{
    mark_all(q, n, rows, t);
    let mut pending: u64 = 0;
    for m in 0..rows + 1 {
        let new = t[m];
        let late = pending & new;
        if late != 0 {
            return late;
        }
        let ready = pending | new;
        let served = row_of(ready, s);
        t[m] = served;
        pending = ready ^ served;
    }
    0
}

// Puts the first n numbers of t in the first places of a lent run. One by one, as `copy_from_slice` of two lent runs calls memmove, which no archive for C needs
// otherwise.
pub(crate) fn copy(t: &[u64], n: usize, out: &mut [u64])
    requires { (n ≤ length t.now) × (n ≤ length out.old) }
    ensures { out.new ≡ filled (λ m. get_or t.now m 0) n out.old }
{
    for m in 0..n {
        out[m] = t[m];
    }
}
