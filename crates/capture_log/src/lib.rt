// The records of a capture, page 02 'Ask 1'.
#![tactic(auto)]

ghost use Rattle.std.specs.Prelude.{◌≡◌, ◌+◌, ◌<◌, ◌≤◌, true, length};
ghost use Rattle.units.specs.Units.{bp};
ghost use Rattle.sheet_record.specs.Numbers.{be};
ghost use Rattle.capture_log.specs.Log.{around};
ghost use Rattle.capture_log.specs.Records;
ghost use Rattle.capture_log.specs.Records.{size, none, event_at, met_at};

use units::BitPeriods;

// One record: kind 16, a request that enters its queue, or 17, its completed answer; the stream's number; and the stamp, a counter
// of bp that runs over to zero. All are 0 where no record stands.
#[derive(Clone, Copy)]
pub struct Event {
    pub kind: u8,
    pub stream: u32,
    pub stamp: u32,
}

// How many bytes a record has.
pub const SIZE: usize = 7;

// The kinds of a capture; those of a sheet are unknown in it.
pub fn known(kind: u8) -> bool
    ensures { result ≡ Records.known kind }
{
    (kind == 16) | (kind == 17)
}

// The number in two bytes, the highest first.
fn pair(c: &[u8], at: usize) -> u32
    requires { at + 2 ≤ length c.now }
    ensures { (result ≡ be c.now at 2) × (result < 65536) }
{
    c[at] as u32 * 256 + c[at + 1] as u32
}

// No record.
fn nothing() -> Event
    ensures { result ≡ none }
{
    Event {
        kind: 0,
        stream: 0,
        stamp: 0,
    }
}

// A record whose bytes all stand.
fn whole_at(c: &[u8], at: usize) -> Event
    requires { at + size ≤ length c.now }
    ensures { result ≡ event_at c.now at }
{
    let stream = pair(c, at + 1);
    let high = pair(c, at + 3);
    let low = pair(c, at + 5);
    Event {
        kind: c[at],
        stream,
        stamp: high * 65536 + low,
    }
}

// The record at a place of a capture; nothing where no whole record of kind 16 or 17 stands. Any place may be asked.
pub fn event_at(c: &[u8], at: usize) -> Event
    ensures { result ≡ met_at c.now at }
{
    if c.len() <= at {
        return nothing();
    }
    if c.len() - at < SIZE {
        return nothing();
    }
    if !known(c[at]) {
        return nothing();
    }
    whole_at(c, at)
}

// A response: the later stamp minus the earlier one, taken around the wrap.
pub fn response(later: u32, earlier: u32) -> BitPeriods
    ensures { result ≡ bp (around later earlier) }
{
    BitPeriods(std::num::wrapping_sub_u32(later, earlier))
}
