// The report of a sheet whose urgent requests go first.
#![tactic(auto)]

ghost use Rattle.report_urgent.specs.Stored.{Tells};

use planner_output::{ACCEPTED, REFUSED};
use report_phrases::Reported;
use report_urgent_lines::MOST_TEXT;

// Writes the report of the sheet.
fn write(rt: &HostRuntime, sheet: &[u8], text: &[u8; MOST_TEXT], n: usize, accepted: bool) -> u8
    requires { Tells sheet.now text.now n accepted }
{
    let status = if accepted { ACCEPTED } else { REFUSED };
    planner_output::report(rt, text, n, status)
}

pub fn report(rt: &HostRuntime, sheet: &[u8]) -> u8 {
    let mut text = report_urgent_lines::text_buffer();
    match report_urgent::report(sheet, &mut text) {
        Reported::Accepted(n) => write(rt, sheet, &text, n, true),
        Reported::Refused(n) => write(rt, sheet, &text, n, false),
    }
}
