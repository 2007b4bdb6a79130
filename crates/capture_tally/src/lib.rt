// A tester's capture, page 02 'Ask 1', taken piece by piece: `take` goes over a piece once, and what it keeps is one place for each
// stream of five runs.
#![tactic(auto)]

ghost use Rattle.std.specs.Prelude.{◌≡◌, ℕ, ◌<◌, ◌≤◌, min, length, nat_lt, slice_index};
ghost use Rattle.common.specs.Checks.{verdict};
ghost use Rattle.common.specs.Sums.{when};
ghost use Rattle.sheet_record.specs.Kinds.{within};
ghost use Rattle.capture_log.specs.Records.{event_at, event_checks};
ghost use Rattle.capture_tally.specs.Pieces.{most, before, answer_to, run_by, left_after, since_after, answers_after, largest_after, above_after};
ghost use Rattle.capture_tally.specs.Steps.{Long, no_of, open_no, spot, left_with, since_with, answers_with, largest_with, above_with};

use capture_log::Event;
use common::Refusal;
use sheet_read::MOST;

// 1 for a response above the bound, else 0.
fn exceeds(bound: u32, shown: u32) -> u64
    ensures { result ≡ when (nat_lt bound shown) 1 }
{
    if bound < shown { 1 } else { 0 }
}

// Stream 1 to the last that the sheet has.
fn on_sheet(stream: u32, streams: usize) -> bool
    ensures { result ≡ within 1 stream (min streams most) }
{
    let i = stream as usize;
    (1 <= i) & (i <= streams.min(MOST))
}

// An answer with no request open, a request while one is open, or neither.
fn open_no(kind: u8, waiting: u8) -> u8
    ensures { result ≡ open_no kind waiting }
{
    if (kind == 17) & (waiting == 0) {
        return 15;
    }
    if (kind == 16) & (waiting != 0) {
        return 16;
    }
    0
}

// The number of a record's refusal, in the order 2, 1, 14, 15, 16; 0 if there is none.
fn refusal(c: &[u8], at: usize, streams: usize, left: &[u8]) -> u8
    requires { (at < length c.now) × (length left.now ≡ most) }
    ensures { (w : ℕ) → (1 ≤ (event_at c.now at).stream → (event_at c.now at).stream ≤ most → w ≡ slice_index left.now (spot (event_at c.now at))) → result ≡ no_of (verdict (event_checks (length c.now) (min streams most) w at (event_at c.now at))) }
{
    if !capture_log::known(c[at]) {
        return 2;
    }
    if c.len() - at < capture_log::SIZE {
        return 1;
    }
    let e = capture_log::event_at(c, at);
    if !on_sheet(e.stream, streams) {
        return 14;
    }
    let k = e.stream as usize - 1;
    open_no(e.kind, left[k])
}

// Keeps a record that passed.
fn keep(
    e: Event,
    bound: &[u32],
    left: &mut [u8],
    since: &mut [u32],
    answers: &mut [u64],
    largest: &mut [u32],
    above: &mut [u64],
)
    requires le_stream { (1 ≤ e.stream) × (e.stream ≤ most) }
    requires long { Long bound.now left.old since.old answers.old largest.old above.old }
    ensures left_after { left.new ≡ left_with left.old e }
    ensures since_after { since.new ≡ since_with since.old e }
    ensures answers_after { answers.new ≡ answers_with answers.old e }
    ensures largest_after { largest.new ≡ largest_with since.old largest.old e }
    ensures above_after { above.new ≡ above_with bound.now since.old above.old e }
{
    let k = e.stream as usize - 1;
    if e.kind == 16 {
        left[k] = 1;
        since[k] = e.stamp;
        return;
    }
    let shown = capture_log::response(e.stamp, since[k]).0;
    left[k] = 0;
    answers[k] = answers[k].wrapping_add(1);
    largest[k] = largest[k].max(shown);
    above[k] = above[k].wrapping_add(exceeds(bound[k], shown));
}

// The records of a piece, one after the other, up to the first that is refused.
fn take_each(
    piece: &[u8],
    streams: usize,
    bound: &[u32],
    left: &mut [u8],
    since: &mut [u32],
    answers: &mut [u64],
    largest: &mut [u32],
    above: &mut [u64],
) -> Result<(), Refusal>
    requires { Long bound.now left.old since.old answers.old largest.old above.old }
    ensures { let p = piece.now in
        let b = before left.old since.old in
        (result ≡ answer_to p streams b)
        × (result ≡ Ok tt → left.new ≡ left_after p b)
        × (result ≡ Ok tt → since.new ≡ since_after p b)
        × (result ≡ Ok tt → answers.new ≡ answers_after p answers.old)
        × (result ≡ Ok tt → largest.new ≡ largest_after p b largest.old)
        × (result ≡ Ok tt → above.new ≡ above_after p b bound.now above.old) }
{
    for at in (0..piece.len()).step_by(capture_log::SIZE) {
        let no = refusal(piece, at, streams, left);
        if no != 0 {
            return Err(Refusal { no, place: at });
        }
        let e = capture_log::event_at(piece, at);
        keep(e, bound, left, since, answers, largest, above);
    }
    Ok(())
}

// Takes the records of a piece, the next of a capture, behind those whose open requests, stamps and figures the runs keep. A refused piece
// leaves the runs as they were: a copy is put back, so that no pass need go ahead to look for a refusal.
pub fn take(
    piece: &[u8],
    streams: usize,
    bound: &[u32; MOST],
    left: &mut [u8; MOST],
    since: &mut [u32; MOST],
    answers: &mut [u64; MOST],
    largest: &mut [u32; MOST],
    above: &mut [u64; MOST],
) -> Result<(), Refusal>
    ensures { let p = piece.now in
        let b = before left.old since.old in
        let told = answer_to p streams b in
        (result ≡ told)
        × (left.new ≡ run_by told (left_after p b) left.old)
        × (since.new ≡ run_by told (since_after p b) since.old)
        × (answers.new ≡ run_by told (answers_after p answers.old) answers.old)
        × (largest.new ≡ run_by told (largest_after p b largest.old) largest.old)
        × (above.new ≡ run_by told (above_after p b bound.now above.old) above.old) }
{
    let old_left = *left;
    let old_since = *since;
    let old_answers = *answers;
    let old_largest = *largest;
    let old_above = *above;
    let taken = take_each(piece, streams, bound, left, since, answers, largest, above);
    if taken.is_err() {
        *left = old_left;
        *since = old_since;
        *answers = old_answers;
        *largest = old_largest;
        *above = old_above;
    }
    taken
}
