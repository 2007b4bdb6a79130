// One case: the capture as a whole, and in pieces.
ghost use Rattle.std.specs.Prelude.{◌≤◌};

use crate::pieces::try_pieces;
use crate::words::{say, say_figures, say_plan};

fn places(b: u8) -> usize
    ensures { result ≤ 255 }
{
    b as usize
}

// Lends the first places of the four runs: so many of each.
fn try_whole(rt: &HostRuntime, s: &[u8], c: &[u8], a: usize, b: usize, d: usize, e: usize)
    requires { (a ≤ 255) × (b ≤ 255) × (d ≤ 255) × (e ≤ 255) }
{
    let mut answers = [170u64; 800];
    let mut largest = [170u32; 800];
    let mut above = [170u64; 800];
    let mut left = [170u8; 800];
    let plan = capture_compare::compare(
        s,
        c,
        &mut answers[..a],
        &mut largest[..b],
        &mut above[..d],
        &mut left[..e],
    );
    let n = say_plan(rt, plan);
    say_figures(rt, n, 170, &answers, &largest, &above, &left);
}

// The places of the four runs, and the bytes of a piece.
pub(crate) fn try_case(rt: &HostRuntime, s: &[u8], c: &[u8], room: &[u8; 5]) {
    let a = places(room[0]);
    let b = places(room[1]);
    let d = places(room[2]);
    let e = places(room[3]);
    try_whole(rt, s, c, a, b, d, e);
    say(rt, b"\n  in pieces");
    try_pieces(rt, s, c, places(room[4]));
}
