// How long a request has been open, and how far ahead of the earliest instant at which it can be due it came, by a clock of 64 bits that goes on
// where the tester's counter runs over: what one record does to it.
#![tactic(auto)]

ghost use Rattle.std.specs.Prelude.{◌≡◌, not, ◌&&◌, if◌then◌else◌, ◌==◌, nat_eq, nat_lt};
ghost use Rattle.common.specs.Sums.{when};
ghost use Rattle.capture_ages.specs.Ages.{lead_behind, kept_lead};
ghost use Rattle.capture_ages.specs.Clock.{began, ago, step_of, tick, lead_of, watch_with};

use capture_log::Event;

// The clock and the stamp at the latest record, both 0 before the first; whether two successive records were 2^31 bp or more apart; how many
// requests came too soon; and the stream of the first of these, 0 for none.
#[derive(Clone, Copy)]
pub struct Watch {
    pub clock: u64,
    pub stamp: u32,
    pub broken: bool,
    pub soon: u64,
    pub whose: u32,
}

// Before the first record.
pub fn start() -> Watch
    ensures { result ≡ began }
{
    Watch {
        clock: 0,
        stamp: 0,
        broken: false,
        soon: 0,
        whose: 0,
    }
}

// The bp from the record before to one with this stamp; 1 at the first.
fn step(w: Watch, stamp: u32) -> u32
    ensures { result ≡ step_of w stamp }
{
    if w.clock == 0 {
        return 1;
    }
    capture_log::response(stamp, w.stamp).0
}

// The clock at a record with this stamp.
pub fn clock_at(w: Watch, stamp: u32) -> u64
    ensures { result ≡ tick w stamp }
{
    let s = step(w, stamp);
    w.clock.wrapping_add(s as u64)
}

// The lead of a request that comes `gap` behind the previous one; before a first request stands no other.
fn lead_behind(spacing: u32, previous: u64, lead: u32, gap: u64) -> u64
    ensures { result ≡ lead_behind spacing previous lead gap }
{
    if previous == 0 {
        return 0;
    }
    let due = lead as u64 + spacing as u64;
    due.saturating_sub(gap)
}

// The lead of a request at the next record.
pub fn lead_of(w: Watch, e: Event, spacing: u32, previous: u64, lead: u32) -> u64
    ensures { result ≡ lead_of w e spacing previous lead }
{
    let gap = clock_at(w, e.stamp).wrapping_sub(previous);
    lead_behind(spacing, previous, lead, gap)
}

// It came more than its stream's jitter before it can be due.
pub fn too_soon(jitter: u32, lead: u64) -> bool
    ensures { result ≡ nat_lt jitter lead }
{
    (jitter as u64) < lead
}

// A request that came too soon begins anew.
pub fn kept_lead(jitter: u32, lead: u64) -> u32
    ensures { result ≡ kept_lead jitter lead }
{
    if too_soon(jitter, lead) {
        return 0;
    }
    lead as u32
}

// The stream of the first request that came too soon, 0 for none.
fn first(whose: u32, early: bool, stream: u32) -> u32
    ensures { result ≡ (if nat_eq whose 0 then when early stream else whose) }
{
    if whose != 0 {
        return whose;
    }
    if early {
        return stream;
    }
    0
}

// What is kept behind a record.
pub fn behind(w: Watch, e: Event, early: bool) -> Watch
    ensures { result ≡ watch_with w e early }
{
    let far = 0x8000_0000 <= step(w, e.stamp);
    Watch {
        clock: clock_at(w, e.stamp),
        stamp: e.stamp,
        broken: w.broken | far,
        soon: w.soon.wrapping_add(early as u64),
        whose: first(w.whose, early, e.stream),
    }
}

// 1 for a request that has been open for longer than the bound, else 0.
pub fn open_too_long(clock: u64, bound: u32, left: u8, asked: u64) -> u64
    ensures { result ≡ when (not (left == 0) && nat_lt bound (ago clock asked)) 1 }
{
    if (left != 0) & ((bound as u64) < clock.wrapping_sub(asked)) {
        return 1;
    }
    0
}
