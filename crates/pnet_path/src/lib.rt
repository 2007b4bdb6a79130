// A path over several P-NET segments, page 02 'Ask 4'. It is handed over segment by segment, each with the gateway that leads to it, so
// a list of forwarding times of another length cannot be said, and no run is lent. What is kept has a place for each of eleven segments.
#![tactic(auto)]

ghost use Rattle.std.specs.Prelude.{◌≡◌};
ghost use Rattle.pnet_path.specs.Ways;
ghost use Rattle.pnet_path.specs.Ways.{started, over_to, answer_of};

use common::Refusal;
use units::BitPeriods;

// The segments so far. Place i of `masters` and `bounds` is for segment i, place i of `times` for gateway i, which lies between segments
// i and i + 1; place 0 is not looked at. Where the sheet of the last segment was refused, its refusal is kept.
#[derive(Clone, Copy)]
pub struct Way {
    pub segments: usize,
    pub refused: Option<Refusal>,
    pub masters: [u8; 12],
    pub bounds: [BitPeriods; 12],
    pub times: [BitPeriods; 11],
}

// No segment yet.
pub fn start() -> Way
    ensures { result ≡ started }
{
    Way {
        segments: 0,
        refused: None,
        masters: [0; 12],
        bounds: [BitPeriods(0); 12],
        times: [BitPeriods(0); 11],
    }
}

// One segment more: its sender and R, and the forwarding time of the gateway before it.
fn further(way: Way, time: BitPeriods, master: u8, bound: BitPeriods) -> Way
    ensures { result ≡ Ways.further way time.0 master bound.0 }
{
    let n = way.segments;
    let mut next = way;
    next.segments = n.saturating_add(1);
    if n < 11 {
        next.masters[n + 1] = master;
        next.bounds[n + 1] = bound;
        next.times[n] = time;
    }
    next
}

// One segment more, whose sheet is refused: it is the last. Public for a sheet that comes as a text and is refused as that.
pub fn stopped(way: Way, refusal: Refusal) -> Way
    ensures { result ≡ Ways.stopped way refusal }
{
    let n = way.segments;
    let mut next = way;
    next.segments = n.saturating_add(1);
    next.refused = Some(refusal);
    next
}

// Hands over the next segment: its sheet, the master that sends there, and the forwarding time of the gateway that leads there, which is
// not looked at for the first. Behind a sheet that is refused nothing is looked at.
pub fn over(way: Way, forwarding: BitPeriods, s: &[u8], master: u8) -> Way
    ensures { result ≡ over_to way forwarding.0 s.now master }
{
    if way.refused.is_some() {
        return way;
    }
    match pnet_sender::bound_of(s, master) {
        Ok(bound) => further(way, forwarding, master, bound),
        Err(refusal) => stopped(way, refusal),
    }
}

// What the path so far costs, with its deadline.
pub fn answer(way: Way, deadline: BitPeriods) -> Result<BitPeriods, Refusal>
    ensures { result ≡ answer_of way deadline.0 }
{
    if let Some(refusal) = way.refused {
        return Err(refusal);
    }
    let gateways = way.segments.saturating_sub(1);
    let bounds = way.bounds;
    let times = way.times;
    pnet_crossing::over_gateways(bounds, times, gateways, deadline)
}
