// The ranges of a record's fields, page 01 'Sheet records' and page 02 'Ask 7', 'Ask 8' and 'Ask 10': judging one record, behind what is given.
#![tactic(auto)]

ghost use Rattle.std.specs.Prelude.{◌&&◌, ◌≡◌, ◌-◌, eqb};
ghost use Rattle.sheet_record.specs.Kinds.{within, in_range};

use sheet_record::{Given, Record};

// A deadline D in 1..T - J and a release jitter J in 0..T - 1.
fn fits_behind(t: u32, d: u32, j: u32) -> bool
    ensures { result ≡ (within 1 d (t - j) && within 0 j (t - 1)) }
{
    (1 <= d) & (d <= t.saturating_sub(j)) & (j <= t.saturating_sub(1))
}

// The longest cycle C of a P-NET stream is at most so many bp.
const CYCLE: u32 = 1548;

// So are the ring latency L and a longest message.
const LATENCY: u32 = 100000;

const MESSAGE: u32 = 100000;

// A record of a kind with every field in its range, behind what is given. A field that the kind does not have is 0. All tests are made at
// once, with no branch between them.
pub fn in_range_of(kind: u8, given: Given, r: Record) -> bool
    ensures { result ≡ (eqb r.kind kind && in_range given r) }
{
    let masters = given.masters;
    let message = given.message;
    if r.kind != kind {
        return false;
    }
    let a = r.a;
    let b = r.b;
    let c = r.c;
    let d = r.d;
    let e = r.e;
    match kind {
        1 => (1 <= a) & (a <= 32) & (b == 0) & (c == 0) & (d == 0) & (e == 0),
        2 => (1 <= a)
            & (a <= masters)
            & (1 <= b)
            & (b <= CYCLE)
            & (1 <= c)
            & (c <= 1000000000)
            & (1 <= d)
            & (d <= c)
            & (e == 0),
        3 => (1 <= a)
            & (a <= 32)
            & (1 <= b)
            & (b <= LATENCY)
            & (1 <= c)
            & (c <= MESSAGE)
            & (d == 0)
            & (e == 0),
        4 => (1 <= a)
            & (a <= masters)
            & (1 <= b)
            & (b <= message)
            & (1 <= c)
            & (c <= 1000000000)
            & (d == 0)
            & (e == 0),
        5 => (1 <= a) & (a <= 1000000) & (b == 0) & (c == 0) & (d == 0) & (e == 0),
        6 => (a <= 65535) & (1 <= b) & (b <= 1000000000) & (c == 0) & (d == 0) & (e == 0),
        7 => (1 <= a)
            & (a <= masters)
            & (1 <= b)
            & (b <= CYCLE)
            & (1 <= c)
            & (c <= 1000000000)
            & fits_behind(c, d, e),
        8 => (1 <= a) & (a <= 2) & (b == 0) & (c == 0) & (d == 0) & (e == 0),
        9 => (1 <= a) & (a <= 32) & (1 <= b) & (b <= LATENCY) & (c == 0) & (d == 0) & (e == 0),
        10 => (1 <= a)
            & (a <= masters)
            & (1 <= b)
            & (b <= MESSAGE)
            & (c == 0)
            & (d == 0)
            & (e == 0),
        _ => (a == 0) & (b == 0) & (c == 0) & (d == 0) & (e == 0),
    }
}

// Every field of a record in its range, whatever its kind.
pub fn in_range(given: Given, r: Record) -> bool
    ensures { result ≡ in_range given r }
{
    in_range_of(r.kind, given, r)
}
