// The report of a path over several P-NET segments, page 02 'Ask 4'. What does not fit into the lent run is left out; each inner function
// answers the place just after what it wrote.
#![tactic(auto)]

ghost use Rattle.std.specs.Prelude.{◌≡◌, ◌≤◌, length};
ghost use Rattle.text.specs.Text.{Zeros, Wrote, item, texts};
ghost use Rattle.report_path.specs.Told.{most_path, hop_lines};
ghost use Rattle.report_path.specs.Kept.{count_at, lines_of, report_of, accepts_of, told_in, run_with};

use pnet_path::Way;
use report_path_lines::{put_gateway, put_path_refusal, put_segment, put_sheet_refusal, put_total};
use report_phrases::Reported;
use text::put_word;
use units::BitPeriods;

// No report of a path is longer.
pub const MOST_TEXT: usize = 987;

// Room for every report of a path.
pub fn text_buffer() -> [u8; MOST_TEXT]
    ensures { Zeros most_path result }
{
    [0; MOST_TEXT]
}

// The lines of n gateways, each with the segment behind it.
fn put_hops(
    out: &mut [u8],
    at: usize,
    n: usize,
    masters: [u8; 12],
    bounds: [BitPeriods; 12],
    times: [BitPeriods; 11],
) -> usize
    requires { n ≤ 10 }
    ensures { Wrote out.old at (texts (hop_lines (item masters) (count_at bounds) (count_at times)) n) out.new result }
{
    let mut next = at;
    for i in 0..n {
        let segment = put_gateway(out, next, i as u64 + 1, times[i + 1]);
        next = put_segment(out, segment, i as u64 + 2, masters[i + 2], bounds[i + 2]);
    }
    next
}

// The lines of a path that is accepted: it has eleven segments at most, and all are kept.
fn put_path(out: &mut [u8], way: Way, total: BitPeriods, deadline: BitPeriods) -> usize
    requires { (1 ≤ way.segments) × (way.segments ≤ 11) }
    ensures { Wrote out.old 0 (lines_of way total deadline) out.new result }
{
    let n = way.segments - 1;
    let masters = way.masters;
    let bounds = way.bounds;
    let times = way.times;
    let first = put_word(out, 0, b"P-NET path\n");
    let hops = put_segment(out, first, 1, masters[1], bounds[1]);
    let last = put_hops(out, hops, n, masters, bounds, times);
    put_total(out, last, total, deadline)
}

// Writes the report of the path that was handed over, with its deadline, at the start of the lent run; later bytes keep what they had. None where
// the lent run is shorter than some report may be.
pub fn report(out: &mut [u8], way: Way, deadline: BitPeriods) -> Option<Reported>
    ensures value { result ≡ told_in (length out.old) (accepts_of way deadline) (report_of way deadline) }
    ensures out_after { out.new ≡ run_with out.old (report_of way deadline) }
{
    if out.len() < MOST_TEXT {
        return None;
    }
    if let Some(refusal) = way.refused {
        let segment = way.segments as u64;
        let place = refusal.place as u64;
        return Some(Reported::Refused(put_sheet_refusal(out, segment, refusal.no, place)));
    }
    match pnet_path::answer(way, deadline) {
        Ok(total) => Some(Reported::Accepted(put_path(out, way, total, deadline))),
        Err(refusal) => {
            Some(Reported::Refused(put_path_refusal(out, refusal.no, refusal.place as u64)))
        }
    }
}
