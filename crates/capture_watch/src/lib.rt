// What a capture's bounds rest on: how long a request has been open, and whether it came sooner than its stream's spacing and jitter let it.
// A clock of 64 bits goes on where the tester's counter runs over; what is kept beside it is, for each stream, the clock at its last request and
// that request's lead.
#![tactic(auto)]

ghost use Rattle.std.specs.Prelude.{◌≡◌, ◌/◌, length};
ghost use Rattle.capture_log.specs.Records.{size};
ghost use Rattle.capture_watch.specs.Follow;
ghost use Rattle.capture_watch.specs.Follow.{most, seen, seen_with, followed, met_in, overdue_run};

use capture_ages::{Watch, behind, clock_at, kept_lead, lead_of, open_too_long, too_soon};
use capture_log::Event;
use sheet_read::MOST;

// A request of a stream that has a place.
fn is_request(e: Event) -> bool
    ensures { result ≡ Follow.request e }
{
    let i = e.stream as usize;
    (e.kind == 16) & ((1 <= i) & (i <= MOST))
}

// Follows one record.
fn follow_one(
    w: Watch,
    e: Event,
    spacing: &[u32],
    jitter: &[u32],
    asked: &mut [u64],
    lead: &mut [u32],
) -> Watch
    requires { (length spacing.now ≡ most) × ((length jitter.now ≡ most) × ((length asked.old ≡ most) × (length lead.old ≡ most))) }
    ensures value { result ≡ (seen_with spacing.now jitter.now (seen w asked.old lead.old) e).watch }
    ensures asked_after { asked.new ≡ (seen_with spacing.now jitter.now (seen w asked.old lead.old) e).asked }
    ensures lead_after { lead.new ≡ (seen_with spacing.now jitter.now (seen w asked.old lead.old) e).lead }
{
    if !is_request(e) {
        return behind(w, e, false);
    }
    let k = e.stream as usize - 1;
    let by = jitter[k];
    let new = lead_of(w, e, spacing[k], asked[k], lead[k]);
    asked[k] = clock_at(w, e.stamp);
    lead[k] = kept_lead(by, new);
    behind(w, e, too_soon(by, new))
}

// The whole records of a piece, one after the other.
fn follow_each(
    piece: &[u8],
    kept: Watch,
    spacing: &[u32],
    jitter: &[u32],
    asked: &mut [u64],
    lead: &mut [u32],
) -> Watch
    requires { (length spacing.now ≡ most) × ((length jitter.now ≡ most) × ((length asked.old ≡ most) × (length lead.old ≡ most))) }
    ensures value { result ≡ (followed spacing.now jitter.now (seen kept asked.old lead.old) (met_in piece.now (length piece.now / size))).watch }
    ensures asked_after { asked.new ≡ (followed spacing.now jitter.now (seen kept asked.old lead.old) (met_in piece.now (length piece.now / size))).asked }
    ensures lead_after { lead.new ≡ (followed spacing.now jitter.now (seen kept asked.old lead.old) (met_in piece.now (length piece.now / size))).lead }
{
    let mut w = kept;
    for n in 0..piece.len() / capture_log::SIZE {
        let e = capture_log::event_at(piece, n * capture_log::SIZE);
        w = follow_one(w, e, spacing, jitter, asked, lead);
    }
    w
}

// Follows the whole records of a piece, the next of a capture, behind those of which w and the runs `asked` and `lead` keep what is needed;
// `spacing` and `jitter` have each stream's T and J.
pub fn follow(
    piece: &[u8],
    w: Watch,
    spacing: &[u32; MOST],
    jitter: &[u32; MOST],
    asked: &mut [u64; MOST],
    lead: &mut [u32; MOST],
) -> Watch
    ensures value { result ≡ (followed spacing.now jitter.now (seen w asked.old lead.old) (met_in piece.now (length piece.now / size))).watch }
    ensures asked_after { asked.new ≡ (followed spacing.now jitter.now (seen w asked.old lead.old) (met_in piece.now (length piece.now / size))).asked }
    ensures lead_after { lead.new ≡ (followed spacing.now jitter.now (seen w asked.old lead.old) (met_in piece.now (length piece.now / size))).lead }
{
    follow_each(piece, w, spacing, jitter, asked, lead)
}

// Stream by stream.
fn overdue_each(clock: u64, bound: &[u32], left: &[u8], asked: &[u64], late: &mut [u64])
    requires { (length bound.now ≡ most) × ((length left.now ≡ most) × ((length asked.now ≡ most) × (length late.old ≡ most))) }
    ensures { late.new ≡ overdue_run clock bound.now left.now asked.now }
{
    for i in 0..MOST {
        late[i] = open_too_long(clock, bound[i], left[i], asked[i]);
    }
}

// 1 for each stream with a request that has been open for longer than its bound at the latest record, else 0.
pub fn overdue(
    w: Watch,
    bound: &[u32; MOST],
    left: &[u8; MOST],
    asked: &[u64; MOST],
    late: &mut [u64; MOST],
)
    ensures { late.new ≡ overdue_run w.clock bound.now left.now asked.now }
{
    overdue_each(w.clock, bound, left, asked, late);
}
