// A sheet as text, and a text as a sheet, on standard output. What is refused is said on standard error, so that nothing but a whole text or a whole
// sheet ever stands in the file that it goes to.
use common::Refusal;
use planner_complaints::blame;
use planner_io::input::{Source, Unread, read_sheet};
use planner_output::{ACCEPTED, FAILED, REFUSED, complain};

// Says of an input how it is refused.
pub(crate) fn refuse(rt: &HostRuntime, name: &[u8], refusal: Refusal) -> u8 {
    blame(rt, name);
    let _ = planner_output::put_refusal(&rt.stderr(), refusal.no, refusal.place);
    REFUSED
}

// The same where nothing of it is kept; that a read failed was said.
pub(crate) fn refuse_unread(rt: &HostRuntime, name: &[u8], unread: Unread) -> u8 {
    match unread {
        Unread::Failed => FAILED,
        Unread::BadLine(line) => refuse(
            rt,
            name,
            Refusal {
                no: 23,
                place: line,
            },
        ),
    }
}

// Reading takes a ring; what is refused is its text.
fn refuse_text(rt: &HostRuntime, name: &[u8], refusal: Refusal, first: u8) -> u8 {
    let status = refuse(rt, name, refusal);
    if (refusal.no == 2) & (refusal.place == 0) & (first == 3) {
        complain(
            rt,
            b"planner: a PROFIBUS ring of kind 3 has no text form; --rewrite makes a sheet that has one\n",
        );
    }
    status
}

fn write_text(rt: &HostRuntime, name: &[u8], s: &[u8]) -> u8 {
    let mut text = sheet_text::text_buffer();
    match sheet_text::export(s, &mut text) {
        Ok(n) => planner_output::report(rt, &text, n, ACCEPTED),
        Err(refusal) => {
            let first = if s.len() > 0 { s[0] } else { 0 };
            refuse_text(rt, name, refusal, first)
        }
    }
}

fn write_sheet(rt: &HostRuntime, name: &[u8], s: &[u8]) -> u8 {
    match sheet_read::read(s) {
        Ok(_) => planner_output::report(rt, s, s.len(), ACCEPTED),
        Err(refusal) => refuse(rt, name, refusal),
    }
}

// Writes the text of a sheet, or the bytes of the sheet that a text stands for.
pub(crate) fn exchange(rt: &HostRuntime, source: &mut Source, name: &[u8], as_text: bool) -> u8 {
    let mut sheet = sheet_pieces::sheet_buffer();
    match read_sheet(rt, source, name, &mut sheet, as_text) {
        Ok(n) if as_text => write_sheet(rt, name, &sheet[..n]),
        Ok(n) => write_text(rt, name, &sheet[..n]),
        Err(unread) => refuse_unread(rt, name, unread),
    }
}
