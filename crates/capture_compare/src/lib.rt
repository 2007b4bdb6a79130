// A tester's capture beside the bounds of a P-NET sheet, page 02 'Ask 1', for one that stands in memory as a whole: the same as taking
// it piece by piece.
#![tactic(auto)]

ghost use Rattle.std.specs.Prelude.{◌≡◌, ◌+◌, ◌≤◌, length, get_or};
ghost use Rattle.common.specs.Runs.{filled};
ghost use Rattle.pnet_plan.specs.Planned.{plan_of};
ghost use Rattle.capture_log.specs.Log;
ghost use Rattle.capture_log.specs.Log.{fresh};
ghost use Rattle.capture_log.specs.Records.{events, heard};
ghost use Rattle.pnet_bounds.specs.Bounded.{stream_run};
ghost use Rattle.capture_tally.specs.Pieces.{most};
ghost use Rattle.capture_compare.specs.Compared.{compared, answered_of, largest_of, above_of, left_of};
ghost use Rattle.capture_compare.specs.Steps.{plan_by, run_by};

use common::Refusal;
use pnet_plan::Plan;
use sheet_read::MOST;

// Hands the figures of the first n streams over.
fn hand_over(
    n: usize,
    answers: &[u64; MOST],
    largest: &[u32; MOST],
    above: &[u64; MOST],
    left: &[u8; MOST],
    answered: &mut [u64],
    longest: &mut [u32],
    exceeding: &mut [u64],
    waiting: &mut [u8],
)
    requires { (n ≤ most) × (n ≤ length answered.old) × (n ≤ length longest.old) × (n ≤ length exceeding.old) × (n ≤ length waiting.old) }
    ensures answered_after { answered.new ≡ filled (λ i. get_or answers.now i 0) n answered.old }
    ensures longest_after { longest.new ≡ filled (λ i. get_or largest.now i 0) n longest.old }
    ensures exceeding_after { exceeding.new ≡ filled (λ i. get_or above.now i 0) n exceeding.old }
    ensures waiting_after { waiting.new ≡ filled (λ i. get_or left.now i 0) n waiting.old }
{
    answered[..n].copy_from_slice(&answers[..n]);
    longest[..n].copy_from_slice(&largest[..n]);
    exceeding[..n].copy_from_slice(&above[..n]);
    waiting[..n].copy_from_slice(&left[..n]);
}

// The same for a sheet that is accepted, with its bounds.
fn compare_to(
    c: &[u8],
    masters: usize,
    streams: usize,
    bound: &[u32; MOST],
    answers: &mut [u64],
    largest: &mut [u32],
    above: &mut [u64],
    left: &mut [u8],
) -> Result<Plan, Refusal>
    requires { (streams ≤ most) × (streams ≤ length answers.old) × (streams ≤ length largest.old) × (streams ≤ length above.old) × (streams ≤ length left.old) }
    ensures { let told = heard c.now streams fresh in
        let all = events c.now in
        (result ≡ plan_by told masters streams)
        × (answers.new ≡ run_by told (λ i. Log.answered all (i + 1)) streams answers.old)
        × (largest.new ≡ run_by told (λ i. Log.largest fresh all (i + 1)) streams largest.old)
        × (above.new ≡ run_by told (λ i. Log.above fresh (get_or bound.now i 0) all (i + 1)) streams above.old)
        × (left.new ≡ run_by told (λ i. Log.left fresh all (i + 1)) streams left.old) }
{
    let mut own_left = [0u8; MOST];
    let mut since = [0u32; MOST];
    let mut own_answers = [0u64; MOST];
    let mut own_largest = [0u32; MOST];
    let mut own_above = [0u64; MOST];
    capture_tally::take(
        c,
        streams,
        bound,
        &mut own_left,
        &mut since,
        &mut own_answers,
        &mut own_largest,
        &mut own_above,
    )?;
    hand_over(
        streams,
        &own_answers,
        &own_largest,
        &own_above,
        &own_left,
        answers,
        largest,
        above,
        left,
    );
    Ok(Plan { masters, streams })
}

// A capture beside the bounds of a sheet: for each stream its answers, its largest response in bp, its answers above the bound and
// 1 or 0 requests left open, into the first places of the four runs, which keep what they had on a refusal.
pub fn compare(
    s: &[u8],
    c: &[u8],
    answers: &mut [u64],
    largest: &mut [u32],
    above: &mut [u64],
    left: &mut [u8],
) -> Result<Plan, Refusal>
    ensures { let outcome = compared s.now c.now (length answers.old) (length largest.old) (length above.old) (length left.old) in
        (result ≡ plan_of outcome)
        × (answers.new ≡ stream_run outcome (answered_of c.now) answers.old)
        × (largest.new ≡ stream_run outcome (largest_of c.now) largest.old)
        × (above.new ≡ stream_run outcome (above_of c.now) above.old)
        × (left.new ≡ stream_run outcome (left_of c.now) left.old) }
{
    let room = answers
        .len()
        .min(largest.len())
        .min(above.len())
        .min(left.len());
    let mut masters = [0u8; MOST];
    let mut bound = [0u32; MOST];
    let mut spacing = [0u32; MOST];
    let mut jitter = [0u32; MOST];
    let plan = pnet_bounds::bounds(s, room, &mut masters, &mut bound, &mut spacing, &mut jitter)?;
    compare_to(
        c,
        plan.masters,
        plan.streams,
        &bound,
        answers,
        largest,
        above,
        left,
    )
}
