// A sheet as the writer puts it, on standard output: a ring of kind 3, which is no longer written, as kinds 9 and 10 with the same meaning, any other as it
// is. What is refused is said on standard error, as for --export and --import.
use crate::exchange::{refuse, refuse_unread};
use planner_io::input::{Source, read_sheet};
use planner_output::ACCEPTED;

// Any new sheet has room in what a sheet is read into.
fn write_new(rt: &HostRuntime, name: &[u8], s: &[u8]) -> u8 {
    let mut new = sheet_pieces::sheet_buffer();
    match sheet_rewrite::rewrite(s, &mut new) {
        Ok(n) => planner_output::report(rt, &new, n, ACCEPTED),
        Err(refusal) => refuse(rt, name, refusal),
    }
}

// Writes the bytes of a sheet without kind 3, whether it is given as bytes or as a text.
pub(crate) fn rewrite(rt: &HostRuntime, source: &mut Source, name: &[u8]) -> u8 {
    let mut sheet = sheet_pieces::sheet_buffer();
    match read_sheet(rt, source, name, &mut sheet, false) {
        Ok(n) => write_new(rt, name, &sheet[..n]),
        Err(unread) => refuse_unread(rt, name, unread),
    }
}
