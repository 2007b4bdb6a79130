// The lines of a path's report, page 02 'Ask 4', one by one. What does not fit into the lent run is left out; each function answers the place
// just after what it wrote.
#![tactic(auto)]

ghost use Rattle.std.specs.Prelude.{◌++◌};
ghost use Rattle.text.specs.Text.{Wrote, word};
ghost use Rattle.report_phrases.specs.Phrases.{in_bp};
ghost use Rattle.report_path_lines.specs.Lines.{segment_line, gateway_line, total_line, sheet_refusal, path_place, path_refusal};

use report_phrases::{put_both, put_bp, put_name};
use text::{put_counted, put_word};
use units::BitPeriods;

// A count at the end of its line.
fn put_end(out: &mut [u8], at: usize, before: &[u8], b: BitPeriods) -> usize
    ensures { Wrote out.old at ((before.now ++ in_bp b) ++ word "\n") out.new result }
{
    let end = put_bp(out, at, before, b);
    put_word(out, end, b"\n")
}

pub fn put_segment(out: &mut [u8], at: usize, number: u64, master: u8, bound: BitPeriods) -> usize
    ensures { Wrote out.old at (segment_line number master bound) out.new result }
{
    let name = put_counted(out, at, b"segment ", number, b" ");
    let figure = put_name(out, name, master as u64);
    put_end(out, figure, b" bound ", bound)
}

pub fn put_gateway(out: &mut [u8], at: usize, number: u64, time: BitPeriods) -> usize
    ensures { Wrote out.old at (gateway_line number time) out.new result }
{
    let request = put_counted(out, at, b"gateway ", number, b" request ");
    let reply = put_bp(out, request, b"", time);
    put_end(out, reply, b" reply ", time)
}

pub fn put_total(out: &mut [u8], at: usize, total: BitPeriods, deadline: BitPeriods) -> usize
    ensures { Wrote out.old at (total_line total deadline) out.new result }
{
    let next = put_both(out, at, b"total ", total);
    put_end(out, next, b" deadline ", deadline)
}

// The sheet of this segment is refused for itself.
pub fn put_sheet_refusal(out: &mut [u8], segment: u64, no: u8, place: u64) -> usize
    ensures { Wrote out.old 0 (sheet_refusal segment no place) out.new result }
{
    let next = report_phrases::put_refused(out, 0, no, place, b" of segment ");
    put_counted(out, next, b"", segment, b"\n")
}

// The place of a path's refusal in words, and the line's end.
fn put_path_place(out: &mut [u8], at: usize, no: u8, place: u64) -> usize
    ensures { Wrote out.old at (path_place no place) out.new result }
{
    if no == 17 {
        return put_counted(out, at, b" at ", place, b" gateways\n");
    }
    if no == 18 {
        return put_counted(out, at, b" at segment ", place, b"\n");
    }
    if no != 4 {
        return put_word(out, at, b"\n");
    }
    if place == 0 {
        return put_word(out, at, b" at deadline\n");
    }
    put_counted(out, at, b" at gateway ", place, b"\n")
}

// The path is refused for itself.
pub fn put_path_refusal(out: &mut [u8], no: u8, place: u64) -> usize
    ensures { Wrote out.old 0 (path_refusal no place) out.new result }
{
    let next = put_counted(out, 0, b"refused ", no as u64, b"");
    put_path_place(out, next, no, place)
}
