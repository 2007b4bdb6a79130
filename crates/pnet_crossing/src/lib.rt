// What a path over so many gateways answers, page 02 'Ask 4', by R of its segments, the forwarding times of its gateways and its deadline. Its
// runs of bit periods go by value: a reference to an array of structs would be proved by hand.
#![tactic(auto)]

ghost use Rattle.std.specs.Prelude.{◌≡◌, ◌+◌, ◌*◌, ◌≤◌, ◌<◌};
ghost use Rattle.common.specs.Sums.{first_of};
ghost use Rattle.pnet_crossing.specs.Cost.{segment_step, gateway_step, is_too_long, crossing_by, kept, no_bound};

use common::Refusal;
use units::BitPeriods;

fn wide(b: BitPeriods) -> u64
    ensures { (result ≡ b.0) × (result < 4294967296) }
{
    b.0 as u64
}

// The segment step: what segment i and all behind it cost, with so many hops left, this one among them.
#[cycle(gateway_step_segment_step)]
fn segment_step(bounds: [BitPeriods; 12], times: [BitPeriods; 11], i: usize, left: usize) -> u64
    requires { i + i + left ≤ 23 }
    ensures { (result ≡ segment_step (kept bounds) (kept times) left i) × (result ≤ left * 8589934592) }
{
    if left == 0 {
        return 0;
    }
    let bound = wide(bounds[i]);
    bound + gateway_step(bounds, times, i, left - 1)
}

// The gateway step: the gateway behind segment i forwards the request, the rest of the path follows, and it forwards the reply.
#[cycle(gateway_step_segment_step)]
fn gateway_step(bounds: [BitPeriods; 12], times: [BitPeriods; 11], i: usize, left: usize) -> u64
    requires { i + i + left ≤ 22 }
    ensures { (result ≡ gateway_step (kept bounds) (kept times) left i) × (result ≤ left * 8589934592) }
{
    if left == 0 {
        return 0;
    }
    let there = wide(times[i]);
    let rest = segment_step(bounds, times, i + 1, left - 1);
    let back = wide(times[i]);
    there + rest + back
}

// The first of n gateways with a forwarding time out of range, and n + 1 where there is none.
fn first_too_long(times: [BitPeriods; 11], n: usize) -> usize
    requires { n ≤ 10 }
    ensures { result ≡ first_of (is_too_long (kept times)) n 1 }
{
    for i in 1..n + 1 {
        let time = times[i];
        if time.0 > 1_000_000 {
            return i;
        }
    }
    n + 1
}

// The first of n segments whose sender has no streams, and n + 1 where there is none.
fn first_without(bounds: [BitPeriods; 12], n: usize) -> usize
    requires { n ≤ 11 }
    ensures { result ≡ first_of (no_bound bounds) n 1 }
{
    for i in 1..n + 1 {
        let bound = bounds[i];
        if bound.0 == 0 {
            return i;
        }
    }
    n + 1
}

// What a path over 1 to 10 gateways costs.
fn cross(
    bounds: [BitPeriods; 12],
    times: [BitPeriods; 11],
    gateways: usize,
    deadline: BitPeriods,
) -> Result<BitPeriods, Refusal>
    requires { (1 ≤ gateways) × (gateways ≤ 10) }
    ensures { result ≡ crossing_by (kept bounds) (kept times) (no_bound bounds) gateways deadline.0 }
{
    let long = first_too_long(times, gateways);
    if long <= gateways {
        return Err(Refusal { no: 4, place: long });
    }
    if (deadline.0 < 1) | (deadline.0 > 1_000_000_000) {
        return Err(Refusal { no: 4, place: 0 });
    }
    let without = first_without(bounds, gateways + 1);
    if without <= gateways + 1 {
        return Err(Refusal {
            no: 18,
            place: without,
        });
    }
    let cost = segment_step(bounds, times, 1, 2 * gateways + 1);
    if cost > deadline.0 as u64 {
        return Err(Refusal { no: 19, place: 0 });
    }
    Ok(BitPeriods(cost as u32))
}

// What a path over any number of gateways costs.
pub fn over_gateways(
    bounds: [BitPeriods; 12],
    times: [BitPeriods; 11],
    gateways: usize,
    deadline: BitPeriods,
) -> Result<BitPeriods, Refusal>
    ensures { result ≡ crossing_by (kept bounds) (kept times) (no_bound bounds) gateways deadline.0 }
{
    if (gateways < 1) | (gateways > 10) {
        return Err(Refusal {
            no: 17,
            place: gateways,
        });
    }
    cross(bounds, times, gateways, deadline)
}
