// The report of a tester's capture beside a P-NET sheet, page 02 'Ask 1' and 'Ask 11', from the bytes of both. The capture comes piece by piece, each but the
// last ended by a record: `begin` with the sheet, `hear` each piece, `report` behind the last. What is kept between is one place for each
// stream in eleven runs, which the caller lends to all three.
#![tactic(auto)]

ghost use Rattle.std.specs.Prelude.{◌≡◌, List, Bool, ℕ, ◌+◌, ◌^◌, ◌<◌, ltb, length};
ghost use Rattle.pnet_bounds.specs.Bounded.{master_of, spacing_of, jitter_of, stream_run};
ghost use Rattle.pnet_plan.specs.Planned.{plan_of};
ghost use Rattle.capture_tally.specs.Pieces.{answer_to};
ghost use Rattle.report_capture.specs.Shown.{capture_refusal};
ghost use Rattle.report_beside.specs.Whole.{tally, none, seen_after, waiting, after, laid, limit_of, text_of, clean_of};
ghost use Rattle.text.specs.Text.{over};
ghost use Rattle.report_beside.specs.Steps.{last, begun_as, begun_text, heard_as, heard_text, heard_tally, reported_as};
ghost use Rattle.report_beside.specs.Kept.{Kept, Begins, Hears, Reports};

use capture_ages::Watch;
use common::Refusal;
use pnet_plan::Plan;
use report_capture::MOST_TEXT;
use report_phrases::put_refusal;
use sheet_read::MOST;

// A piece that begins at this byte of a capture or behind it is not heard, 2^63: its places could not be counted.
const LAST: usize = 9_223_372_036_854_775_808;

// What goes from step to step beside the runs: whether urgent requests go first, how many streams the sheet has, how many bytes of the capture were heard, and the clock.
#[derive(Clone, Copy)]
pub struct Hearing {
    pub urgent: bool,
    pub streams: usize,
    pub bytes: usize,
    pub watch: Watch,
}

// What beginning with a sheet answers: the capture can be heard; or the sheet is refused, and its report has so many bytes. Kept as an enum, as the next two: what a refusal
// answers is a finished report, and no error.
#[derive(Clone, Copy)]
pub enum Begun {
    On(Hearing),
    Refused(usize),
}

// What hearing a piece answers: the next can be heard; or the capture is refused, and the report has so many bytes; or it is too long
// for its places to be counted.
#[derive(Clone, Copy)]
pub enum Heard {
    On(Hearing),
    Refused(usize),
    TooLong,
}

// How many bytes a report has, of a capture that shows nothing wrong and of one that does.
#[derive(Clone, Copy)]
pub enum Reported {
    Clean(usize),
    Faulty(usize),
}

// Of a refused capture, its refusal is the whole report; the place is one of the piece, with so many bytes of the capture before it.
fn refuse_capture(out: &mut [u8; MOST_TEXT], refusal: Refusal, before: usize) -> usize
    requires { before + refusal.place < 2 ^ 64 }
    ensures { let text = capture_refusal refusal.no (before + refusal.place) in
        (result ≡ length text) × (out.new ≡ over text out.old) }
{
    let at = before + refusal.place;
    report_capture::put_capture_refusal(out, refusal.no, at as u64)
}

// Each stream's master, bound, spacing and jitter under the rule that the sheet is planned by.
fn lay(
    s: &[u8],
    urgent: bool,
    masters: &mut [u8; MOST],
    bound: &mut [u32; MOST],
    spacing: &mut [u32; MOST],
    jitter: &mut [u32; MOST],
) -> Result<Plan, Refusal>
    ensures value { result ≡ plan_of (laid urgent s.now) }
    ensures masters_after { masters.new ≡ stream_run (laid urgent s.now) master_of masters.old }
    ensures bound_after { bound.new ≡ stream_run (laid urgent s.now) (limit_of urgent) bound.old }
    ensures spacing_after { spacing.new ≡ stream_run (laid urgent s.now) spacing_of spacing.old }
    ensures jitter_after { jitter.new ≡ stream_run (laid urgent s.now) jitter_of jitter.old }
{
    if urgent {
        return pnet_urgent_streams::figures(s, MOST, masters, bound, spacing, jitter);
    }
    pnet_bounds::bounds(s, MOST, masters, bound, spacing, jitter)
}

// Begins with the bytes of a sheet: nothing of a capture is heard yet. What the runs held is forgotten.
pub fn begin(
    s: &[u8],
    urgent: bool,
    out: &mut [u8; MOST_TEXT],
    masters: &mut [u8; MOST],
    bound: &mut [u32; MOST],
    spacing: &mut [u32; MOST],
    jitter: &mut [u32; MOST],
    left: &mut [u8; MOST],
    since: &mut [u32; MOST],
    answers: &mut [u64; MOST],
    largest: &mut [u32; MOST],
    above: &mut [u64; MOST],
    asked: &mut [u64; MOST],
    lead: &mut [u32; MOST],
) -> Begun
    ensures fact { let sheet = laid urgent s.now in
        (result ≡ begun_as urgent sheet)
        × (out.new ≡ begun_text sheet out.old)
        × (masters.new ≡ stream_run sheet master_of none)
        × (bound.new ≡ stream_run sheet (limit_of urgent) none)
        × (spacing.new ≡ stream_run sheet spacing_of none)
        × (jitter.new ≡ stream_run sheet jitter_of none)
        × (left.new ≡ none)
        × (since.new ≡ none)
        × (answers.new ≡ none)
        × (largest.new ≡ none)
        × (above.new ≡ none)
        × (asked.new ≡ none)
        × (lead.new ≡ none) }
    ensures fact_2 { let then = tally left.new since.new answers.new largest.new above.new asked.new lead.new in
        Begins urgent s.now result out.old out.new masters.new bound.new spacing.new jitter.new then }
{
    *masters = [0; MOST];
    *bound = [0; MOST];
    *spacing = [0; MOST];
    *jitter = [0; MOST];
    *left = [0; MOST];
    *since = [0; MOST];
    *answers = [0; MOST];
    *largest = [0; MOST];
    *above = [0; MOST];
    *asked = [0; MOST];
    *lead = [0; MOST];
    match lay(s, urgent, masters, bound, spacing, jitter) {
        Ok(plan) => Begun::On(Hearing {
            urgent,
            streams: plan.streams,
            bytes: 0,
            watch: capture_ages::start(),
        }),
        // Of a refused sheet, its refusal is the whole report.
        Err(refusal) => Begun::Refused(put_refusal(out, 0, refusal.no, refusal.place as u64)),
    }
}

// Hears a piece, the next of the capture behind those of which `heard` and the runs keep what is needed.
pub fn hear(
    piece: &[u8],
    out: &mut [u8; MOST_TEXT],
    heard: Hearing,
    bound: &[u32; MOST],
    spacing: &[u32; MOST],
    jitter: &[u32; MOST],
    left: &mut [u8; MOST],
    since: &mut [u32; MOST],
    answers: &mut [u64; MOST],
    largest: &mut [u32; MOST],
    above: &mut [u64; MOST],
    asked: &mut [u64; MOST],
    lead: &mut [u32; MOST],
) -> Heard
    ensures fact { let p = piece.now in
        let was = tally left.old since.old answers.old largest.old above.old asked.old lead.old in
        let short = ltb heard.bytes last in
        let answer = answer_to p heard.streams (waiting was) in
        let then = heard_tally short answer (after p bound.now spacing.now jitter.now heard.watch was) was in
        (result ≡ heard_as short answer heard (length p) (seen_after p spacing.now jitter.now heard.watch was.asked was.lead).watch)
        × (out.new ≡ heard_text short answer heard.bytes out.old)
        × (left.new ≡ then.left)
        × (since.new ≡ then.since)
        × (answers.new ≡ then.answers)
        × (largest.new ≡ then.largest)
        × (above.new ≡ then.above)
        × (asked.new ≡ then.asked)
        × (lead.new ≡ then.lead) }
    ensures fact_2 { let R = bound.now in
        let T = spacing.now in
        let J = jitter.now in
        let was = tally left.old since.old answers.old largest.old above.old asked.old lead.old in
        let then = tally left.new since.new answers.new largest.new above.new asked.new lead.new in
        ((urgent : Bool) (s c masters : List ℕ) → Kept urgent s c heard masters R T J was → Hears urgent s c piece.now result out.old out.new masters R T J then) }
{
    let bytes = heard.bytes;
    if LAST <= bytes {
        return Heard::TooLong;
    }
    let streams = heard.streams;
    let taken = capture_tally::take(piece, streams, bound, left, since, answers, largest, above);
    if let Err(refusal) = taken {
        return Heard::Refused(refuse_capture(out, refusal, bytes));
    }
    let watch = capture_watch::follow(piece, heard.watch, spacing, jitter, asked, lead);
    let behind = bytes + piece.len();
    Heard::On(Hearing {
        urgent: heard.urgent,
        streams,
        bytes: behind,
        watch,
    })
}

// Writes the report behind the last piece.
pub fn report(
    out: &mut [u8; MOST_TEXT],
    heard: Hearing,
    masters: &[u8; MOST],
    bound: &[u32; MOST],
    left: &[u8; MOST],
    answers: &[u64; MOST],
    largest: &[u32; MOST],
    above: &[u64; MOST],
    asked: &[u64; MOST],
) -> Reported
    ensures fact { let k = tally left.now none answers.now largest.now above.now asked.now none in
        let text = text_of heard.urgent heard.streams masters.now bound.now heard.watch k in
        (result ≡ reported_as (clean_of heard.streams bound.now heard.watch k) (length text)) × (out.new ≡ over text out.old) }
    ensures reports { (urgent : Bool) (s c T J since lead : List ℕ) → Kept urgent s c heard masters.now bound.now T J (tally left.now since answers.now largest.now above.now asked.now lead) → Reports urgent s c result out.old out.new }
{
    let streams = heard.streams;
    let watch = heard.watch;
    let soon = watch.soon;
    let broken = watch.broken;
    let mut late = [0u64; MOST];
    capture_watch::overdue(watch, bound, left, asked, &mut late);
    let n = report_capture::put_capture(
        out,
        heard.urgent,
        streams,
        masters,
        bound,
        largest,
        answers,
        above,
        left,
        &late,
        soon,
        watch.whose,
        broken,
    );
    if report_faults::is_clean(streams, answers, above, &late, soon, broken) {
        Reported::Clean(n)
    } else {
        Reported::Faulty(n)
    }
}
