// The report of a P-NET sheet whose urgent requests go first, page 02 'Ask 11', from what is known of each stream. What does not fit into the lent run is
// left out; each function that writes answers the place just after what it wrote.
#![tactic(auto)]

ghost use Rattle.std.specs.Prelude.{◌≡◌, ◌-◌, ◌*◌, ◌≤◌, min, length};
ghost use Rattle.text.specs.Text.{Zeros, Wrote, item, texts};
ghost use Rattle.report_urgent_lines.specs.Lines.{most_urgent, most_line, figure_text, deadline_text, stream_line, stream_at, late_line, late_text, urgent_text};

use report_faults::shown;
use report_phrases::{put_both, put_bp, put_refused, put_two, put_whose};
use sheet_read::MOST;
use text::{put_counted, put_word};
use units::BitPeriods;

// No report of a sheet whose urgent requests go first is longer.
pub const MOST_TEXT: usize = 89_754;

// Room for every such report.
pub fn text_buffer() -> [u8; MOST_TEXT]
    ensures { Zeros most_urgent result }
{
    [0; MOST_TEXT]
}

// A stream's place in its master's order, its figure and the rounds of the search for it.
fn put_figure(out: &mut [u8], at: usize, place: u32, figure: BitPeriods, rounds: u32) -> usize
    ensures { Wrote out.old at (figure_text place figure rounds) out.new result }
{
    let periods = put_counted(out, at, b" place ", place as u64, b" figure ");
    let search = put_both(out, periods, b"", figure);
    put_counted(out, search, b" ", rounds as u64, b" rounds")
}

// A deadline at the end of its line.
fn put_deadline(out: &mut [u8], at: usize, deadline: BitPeriods) -> usize
    ensures { Wrote out.old at (deadline_text deadline) out.new result }
{
    let end = put_bp(out, at, b" deadline ", deadline);
    put_word(out, end, b"\n")
}

fn put_stream(
    out: &mut [u8],
    at: usize,
    number: u64,
    master: u8,
    place: u32,
    figure: BitPeriods,
    rounds: u32,
    deadline: BitPeriods,
) -> usize
    requires { number ≤ 800 }
    ensures { let line = stream_line number master place figure rounds deadline in
        Wrote out.old at line out.new result × (length line ≤ most_line) }
{
    let order = put_whose(out, at, number, master);
    let rest = put_figure(out, order, place, figure, rounds);
    put_deadline(out, rest, deadline)
}

// The lines of the first n streams.
fn put_streams(
    out: &mut [u8],
    at: usize,
    n: usize,
    masters: &[u8; MOST],
    places: &[u32; MOST],
    figures: &[u32; MOST],
    rounds: &[u32; MOST],
    deadlines: &[u32; MOST],
) -> usize
    requires { n ≤ 800 }
    ensures { let lines = texts (stream_at (item masters.now) (item places.now) (item figures.now) (item rounds.now) (item deadlines.now)) n in
        Wrote out.old at lines out.new result × (length lines ≤ n * most_line) }
{
    let mut next = at;
    for i in 0..n {
        next = put_stream(
            out,
            next,
            i as u64 + 1,
            masters[i],
            places[i],
            BitPeriods(figures[i]),
            rounds[i],
            BitPeriods(deadlines[i]),
        );
    }
    next
}

// A stream that first-come queues refuse.
fn put_late(
    out: &mut [u8],
    at: usize,
    number: u64,
    bound: BitPeriods,
    figure: BitPeriods,
    deadline: BitPeriods,
) -> usize
    requires { number ≤ 800 }
    ensures { let line = late_line number bound figure deadline in
        Wrote out.old at line out.new result × (length line ≤ 135) }
{
    let refusal = put_word(out, at, b"first come ");
    let counts = put_refused(out, refusal, 8, number, b"");
    let end = put_two(out, counts, b" bound ", bound, b" urgent ", figure);
    put_deadline(out, end, deadline)
}

// The first of n streams that first-come queues refuse, and its bound there; nothing where its number is past the last.
fn put_first_late(
    out: &mut [u8],
    at: usize,
    n: usize,
    figures: &[u32; MOST],
    deadlines: &[u32; MOST],
    late: usize,
    bound: BitPeriods,
) -> usize
    requires { n ≤ 800 }
    ensures { let line = late_text (item figures.now) (item deadlines.now) late bound n in
        Wrote out.old at line out.new result × (length line ≤ 135) }
{
    if n < late {
        return at;
    }
    let i = late.saturating_sub(1);
    put_late(
        out,
        at,
        late as u64,
        bound,
        BitPeriods(figures[i]),
        BitPeriods(deadlines[i]),
    )
}

// Writes the report at the start of the lent run. More than 800 streams count as 800.
pub fn put_urgent(
    out: &mut [u8],
    streams: usize,
    masters: &[u8; MOST],
    places: &[u32; MOST],
    figures: &[u32; MOST],
    rounds: &[u32; MOST],
    deadlines: &[u32; MOST],
    late: usize,
    bound: BitPeriods,
) -> usize
    ensures { let text = urgent_text (item masters.now) (item places.now) (item figures.now) (item rounds.now) (item deadlines.now) late bound (min streams 800) in
        Wrote out.old 0 text out.new result × (length text ≤ most_urgent) }
{
    let n = shown(streams);
    let lines = put_word(out, 0, b"P-NET urgent first\n");
    let last = put_streams(out, lines, n, masters, places, figures, rounds, deadlines);
    put_first_late(out, last, n, figures, deadlines, late, bound)
}
