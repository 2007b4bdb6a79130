// A tester's capture beside the bounds of a sheet, by the rule of urgent requests first or by that of first-come queues, read piece by piece: nothing is kept of a capture but what `report_beside::hear` keeps.
#![tactic(auto)]

ghost use Rattle.report_beside.specs.Whole.{tally};
ghost use Rattle.report_beside.specs.Kept.{Holds, Shows, Tells};

use planner_io::input::{Source, read_all};
use planner_io::words::fail;
use planner_output::{ACCEPTED, FAILED, REFUSED, give_up};
use report_beside::{Begun, Heard, Hearing, Reported};
use report_capture::MOST_TEXT;
use sheet_read::MOST;

// So many whole records: a piece that fills the buffer ends with a record, and one that does not ends the capture.
const PIECE: usize = 65_534;

// Writes the report of the sheet beside what was read of the capture.
fn write(
    rt: &HostRuntime,
    sheet: &[u8],
    urgent: bool,
    text: &[u8; MOST_TEXT],
    n: usize,
    accepted: bool,
) -> u8
    requires { Tells urgent sheet.now text.now n accepted }
{
    let status = if accepted { ACCEPTED } else { REFUSED };
    planner_output::report(rt, text, n, status)
}

// The whole capture was heard.
fn finish(
    rt: &HostRuntime,
    sheet: &[u8],
    urgent: bool,
    text: &mut [u8; MOST_TEXT],
    heard: Hearing,
    masters: &[u8; MOST],
    bound: &[u32; MOST],
    left: &[u8; MOST],
    answers: &[u64; MOST],
    largest: &[u32; MOST],
    above: &[u64; MOST],
    asked: &[u64; MOST],
) -> u8
    requires { Shows urgent sheet.now heard masters.now bound.now left.now answers.now largest.now above.now asked.now }
{
    match report_beside::report(
        text, heard, masters, bound, left, answers, largest, above, asked,
    ) {
        Reported::Clean(n) => write(rt, sheet, urgent, text, n, true),
        Reported::Faulty(n) => write(rt, sheet, urgent, text, n, false),
    }
}

// Hears the capture to its end or its first refusal, and writes the report.
fn listen(
    rt: &HostRuntime,
    sheet: &[u8],
    urgent: bool,
    source: &mut Source,
    name: &[u8],
    text: &mut [u8; MOST_TEXT],
    begun: Hearing,
    masters: &[u8; MOST],
    bound: &[u32; MOST],
    spacing: &[u32; MOST],
    jitter: &[u32; MOST],
    left: &mut [u8; MOST],
    since: &mut [u32; MOST],
    answers: &mut [u64; MOST],
    largest: &mut [u32; MOST],
    above: &mut [u64; MOST],
    asked: &mut [u64; MOST],
    lead: &mut [u32; MOST],
) -> u8
    requires { Holds urgent sheet.now begun masters.now bound.now spacing.now jitter.now (tally left.old since.old answers.old largest.old above.old asked.old lead.old) }
{
    let mut heard = begun;
    let mut piece = [0u8; PIECE];
    loop {
        let input = read_all(source, &mut piece);
        if let Some(error) = input.failed {
            fail(rt, name, error);
            return FAILED;
        }
        let n = input.length;
        let told = report_beside::hear(
            &piece[..n],
            text,
            heard,
            bound,
            spacing,
            jitter,
            left,
            since,
            answers,
            largest,
            above,
            asked,
            lead,
        );
        match told {
            Heard::Refused(m) => return write(rt, sheet, urgent, text, m, false),
            Heard::TooLong => return give_up(
                rt,
                b"planner: the capture is too long to be counted\n",
            ),
            Heard::On(next) => {
                if n < PIECE {
                    return finish(
                        rt, sheet, urgent, text, next, masters, bound, left, answers, largest,
                        above, asked,
                    );
                }
                heard = next;
            }
        }
    }
}

// Lays the capture beside the bounds of a sheet.
pub fn compare(
    rt: &HostRuntime,
    sheet: &[u8],
    urgent: bool,
    source: &mut Source,
    name: &[u8],
) -> u8 {
    let mut text = report_capture::text_buffer();
    let mut masters = [0u8; MOST];
    let mut bound = [0u32; MOST];
    let mut spacing = [0u32; MOST];
    let mut jitter = [0u32; MOST];
    let mut left = [0u8; MOST];
    let mut since = [0u32; MOST];
    let mut answers = [0u64; MOST];
    let mut largest = [0u32; MOST];
    let mut above = [0u64; MOST];
    let mut asked = [0u64; MOST];
    let mut lead = [0u32; MOST];
    let begun = report_beside::begin(
        sheet,
        urgent,
        &mut text,
        &mut masters,
        &mut bound,
        &mut spacing,
        &mut jitter,
        &mut left,
        &mut since,
        &mut answers,
        &mut largest,
        &mut above,
        &mut asked,
        &mut lead,
    );
    match begun {
        Begun::Refused(n) => write(rt, sheet, urgent, &text, n, false),
        Begun::On(heard) => listen(
            rt,
            sheet,
            urgent,
            source,
            name,
            &mut text,
            heard,
            &masters,
            &bound,
            &spacing,
            &jitter,
            &mut left,
            &mut since,
            &mut answers,
            &mut largest,
            &mut above,
            &mut asked,
            &mut lead,
        ),
    }
}
