// What is kept of the streams of a sheet so far, and a stream judged by it, page 01 'Numbered refusals' 5 and 7.
#![tactic(auto)]

ghost use Rattle.std.specs.Prelude.{◌≡◌, ◌≤◌};
ghost use Rattle.common.specs.Checks.{unless_no};
ghost use Rattle.sheet_keep.specs.Steps;
ghost use Rattle.sheet_keep.specs.Steps.{late_no, counts_with, longests_with, ids_with};

use common::Refusal;
use sheet_record::Record;

// No sheet of P-NET or PROFIBUS has more streams.
pub const MOST: usize = 800;

// Whether x stands among the first n identifiers. It looks at each, and so at four at a time; to stop at the first, by `any` or `contains`, takes longer.
fn among(x: u32, n: usize, ids: &[u32; 64]) -> bool
    requires { n ≤ 64 }
    ensures { result ≡ Steps.among x n ids.now }
{
    let mut met = false;
    for i in 0..n {
        met = met | (ids[i] == x);
    }
    met
}

// Judges a stream at a place by the n before it: refused with 5 where it is one too many, with 7 where its identifier was met before. Taken in where it is called, so
// that the loop of P-NET and PROFIBUS has no look at identifiers.
#[inline(always)]
pub fn judge(
    counts: &[u8; 33],
    ids: &[u32; 64],
    n: usize,
    r: Record,
    place: usize,
) -> Result<(), Refusal>
    requires { (r.kind ≡ 6 → ⊥) → r.a ≤ 32 }
    ensures { result ≡ unless_no (late_no counts.now ids.now n r) place }
{
    if r.kind == 6 {
        if 64 <= n {
            return Err(Refusal { no: 5, place });
        }
        if among(r.a, n, ids) {
            return Err(Refusal { no: 7, place });
        }
        return Ok(());
    }
    if MOST <= n {
        return Err(Refusal { no: 5, place });
    }
    let master = r.a as usize;
    if 80 <= counts[master] {
        return Err(Refusal { no: 5, place });
    }
    Ok(())
}

// Keeps a stream that passed: one more of its master, and the longest C of those, or its identifier.
#[inline(always)]
pub fn keep(
    counts: &mut [u8; 33],
    longests: &mut [u32; 33],
    ids: &mut [u32; 64],
    n: usize,
    r: Record,
)
    requires r_value { late_no counts.old ids.old n r ≡ 0 }
    requires a_bound { (r.kind ≡ 6 → ⊥) → r.a ≤ 32 }
    ensures counts_after { counts.new ≡ counts_with counts.old r }
    ensures longests_after { longests.new ≡ longests_with longests.old r }
    ensures ids_after { ids.new ≡ ids_with ids.old n r }
{
    if r.kind == 6 {
        ids[n] = r.a;
    } else {
        let master = r.a as usize;
        counts[master] += 1;
        longests[master] = longests[master].max(r.b);
    }
}
