// Sets of at most 64 variables as numbers, and the highest common factor of two periods.
#![tactic(auto)]

ghost use Rattle.std.specs.Prelude.{◌≡◌, ◌<◌, ◌^◌};
ghost use Rattle.worldfip_sets.specs.Sets.{alone, lowest, left, served};
ghost use Rattle.worldfip_sets.specs.Remainder.{Common};

fn shifted(r: u32) -> u64
    requires { r < 64 }
    ensures { result ≡ 2 ^ r }
{
    1u64 << r
}

// The set of r alone, and the empty set from 64 on.
pub fn single(r: u32) -> u64
    ensures { result ≡ alone r }
{
    1u64.checked_shl(r).unwrap_or(0)
}

// The lowest member of x, and 64 if there is none.
pub fn first_of(x: u64) -> u32
    ensures { (result ≡ lowest x) × (0 < x → result < 64) }
{
    u64::trailing_zeros(x)
}

// What is left of x when its lowest member is taken out s times.
fn leave(x: u64, s: u32) -> u64
    ensures { result ≡ left lowest s x }
{
    let mut p = x;
    for _ in 0..s {
        if p == 0 {
            return 0;
        }
        p = p ^ shifted(first_of(p));
    }
    p
}

// A row of s slots: the s lowest members of x. Each rank below s has a slot in any row, so those are taken at once; the ones of the row so far,
// counted against the slots, say how many are free for the lowest of the others.
pub fn row_of(x: u64, s: u32) -> u64
    ensures { result ≡ served lowest s x }
{
    if 64 <= s {
        return x;
    }
    let row = x & (shifted(s) - 1);
    if row == x {
        return row;
    }
    let free = s - u64::count_ones(row);
    x ^ leave(x ^ row, free)
}

// The highest common factor: each step takes a remainder that falls.
pub fn factor(a: u32, b: u32) -> u32
    ensures { Common a b result }
{
    if b == 0 { a } else { factor(b, a % b) }
}
