// The report of a tester's capture beside the bounds of a P-NET sheet, page 02 'Ask 1' and 'Ask 11'. What does not fit into the lent run is left
// out; each function answers the place just after what it wrote.
#![tactic(auto)]

ghost use Rattle.std.specs.Prelude.{◌≡◌, ◌*◌, ◌≤◌, min, length};
ghost use Rattle.text.specs.Text.{Zeros, Wrote, item, texts};
ghost use Rattle.report_capture.specs.Shown.{most_capture, most_line, counts_text, stream_line, stream_at, heading, capture_text, capture_refusal};

use report_faults::{put_last, shown};
use report_phrases::{put_two, put_whose};
use sheet_read::MOST;
use text::{put_counted, put_word};
use units::BitPeriods;

// No report of a capture is longer.
pub const MOST_TEXT: usize = 126_673;

// Room for every report of a capture.
pub fn text_buffer() -> [u8; MOST_TEXT]
    ensures { Zeros most_capture result }
{
    [0; MOST_TEXT]
}

fn put_counts(out: &mut [u8], at: usize, answers: u64, above: u64, left: u8) -> usize
    ensures { Wrote out.old at (counts_text answers above left) out.new result }
{
    let next = put_counted(out, at, b" ", answers, b" answers ");
    let rest = put_counted(out, next, b"", above, b" above ");
    put_counted(out, rest, b"", left as u64, b" open\n")
}

fn put_stream(
    out: &mut [u8],
    at: usize,
    number: u64,
    master: u8,
    bound: BitPeriods,
    largest: BitPeriods,
    answers: u64,
    above: u64,
    left: u8,
) -> usize
    requires { number ≤ 800 }
    ensures { let line = stream_line number master bound largest answers above left in
        Wrote out.old at line out.new result × (length line ≤ most_line) }
{
    let periods = put_whose(out, at, number, master);
    let counts = put_two(out, periods, b" bound ", bound, b" largest ", largest);
    put_counts(out, counts, answers, above, left)
}

// The lines of the first n streams.
fn put_streams(
    out: &mut [u8],
    at: usize,
    n: usize,
    masters: &[u8; MOST],
    bound: &[u32; MOST],
    largest: &[u32; MOST],
    answers: &[u64; MOST],
    above: &[u64; MOST],
    left: &[u8; MOST],
) -> usize
    requires { n ≤ 800 }
    ensures { let lines = texts (stream_at (item masters.now) (item bound.now) (item largest.now) (item answers.now) (item above.now) (item left.now)) n in
        Wrote out.old at lines out.new result × (length lines ≤ n * most_line) }
{
    let mut next = at;
    for i in 0..n {
        next = put_stream(
            out,
            next,
            i as u64 + 1,
            masters[i],
            BitPeriods(bound[i]),
            BitPeriods(largest[i]),
            answers[i],
            above[i],
            left[i],
        );
    }
    next
}

// The heading, with the rule that the bounds are of.
fn put_heading(out: &mut [u8], urgent: bool) -> usize
    ensures { Wrote out.old 0 (heading urgent) out.new result }
{
    if urgent {
        return put_word(out, 0, b"P-NET capture urgent first\n");
    }
    put_word(out, 0, b"P-NET capture\n")
}

// Writes the report at the start of the lent run. More than 800 streams count as 800.
pub fn put_capture(
    out: &mut [u8],
    urgent: bool,
    streams: usize,
    masters: &[u8; MOST],
    bound: &[u32; MOST],
    largest: &[u32; MOST],
    answers: &[u64; MOST],
    above: &[u64; MOST],
    left: &[u8; MOST],
    late: &[u64; MOST],
    soon: u64,
    whose: u32,
    broken: bool,
) -> usize
    ensures { let text = capture_text urgent (item masters.now) (item bound.now) (item largest.now) (item answers.now) (item above.now) (item left.now) (item late.now) soon whose broken (min streams 800) in
        Wrote out.old 0 text out.new result × (length text ≤ most_capture) }
{
    let n = shown(streams);
    let lines = put_heading(out, urgent);
    let last = put_streams(out, lines, n, masters, bound, largest, answers, above, left);
    put_last(
        out, last, streams, answers, above, late, soon, whose, broken,
    )
}

// Writes the report of a capture that is refused.
pub fn put_capture_refusal(out: &mut [u8], no: u8, place: u64) -> usize
    ensures { Wrote out.old 0 (capture_refusal no place) out.new result }
{
    let next = put_counted(out, 0, b"refused ", no as u64, b" at capture byte ");
    put_counted(out, next, b"", place, b"\n")
}
