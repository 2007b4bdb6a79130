// A path over several P-NET segments, from the words behind `--path`, in fours: a number and its unit, a sheet, and the master that sends
// there. The first number is the deadline, each other one the forwarding time of the gateway that leads to the segment.
ghost use Rattle.std.specs.Prelude.{◌≤◌, length, ◌≡◌, IfOk};
ghost use Rattle.sheet_pieces.specs.Steps.{room};

use common::Refusal;
use planner_io::input::{Unread, open};
use planner_io::words::{WORD, from_standard_input, is_word, serves, show_word, take_word};
use planner_output::{ACCEPTED, FAILED, REFUSED, complain, complain_number};
use pnet_path::Way;
use report_phrases::Reported;
use units::BitPeriods;

// ---- Words

fn number_at(rt: &HostRuntime, i: usize) -> Option<u32> {
    let mut word = [0u8; WORD];
    let n = take_word(rt, i, &mut word);
    text_entry::number(&word[..n])
}

// A master is a number, or M and two digits, as a report shows it.
fn master_at(rt: &HostRuntime, i: usize) -> Option<u32> {
    let mut word = [0u8; WORD];
    let n = take_word(rt, i, &mut word);
    if (n == 3) & (word[0] == b'M') {
        return text_entry::number(&word[1..3]);
    }
    text_entry::number(&word[..n])
}

// The master that word i is; none has a number above 255.
fn sender(rt: &HostRuntime, i: usize) -> u8 {
    master_at(rt, i).unwrap_or(0).min(255) as u8
}

// Word i is what stands there: a number, its unit, any sheet, a master.
fn fits(rt: &HostRuntime, i: usize) -> bool {
    match i % 4 {
        2 => number_at(rt, i).is_some(),
        3 => is_word(rt, i, b"bp"),
        1 => master_at(rt, i).is_some(),
        _ => true,
    }
}

// What should stand at word i.
fn wanted(rt: &HostRuntime, i: usize) {
    if i == 2 {
        complain(
            rt,
            b"DEADLINE, a number of decimal digits, with bp as the next word\n",
        );
        return;
    }
    match i % 4 {
        2 => complain(
            rt,
            b"TIME, a number of decimal digits, with bp as the next word\n",
        ),
        3 => complain(rt, b"the unit of the number before it, bp\n"),
        1 => complain(rt, b"MASTER, as 1 or M01\n"),
        _ => complain(rt, b"SHEET, a file's name or - for standard input\n"),
    }
}

// Says of word i, counted from the one behind `--path`, what stands there, if it does, and what should.
fn misplaced(rt: &HostRuntime, i: usize, count: usize)
    requires { 2 ≤ i }
{
    complain(rt, b"planner: --path: word ");
    complain_number(rt, (i - 1) as u64);
    if i < count {
        complain(rt, b" is ");
        show_word(rt, i);
    } else {
        complain(rt, b" is missing");
    }
    complain(rt, b"; wanted there: ");
    wanted(rt, i);
    complain(
        rt,
        b"planner: --path takes DEADLINE bp, then SHEET MASTER, and for each gateway TIME bp SHEET MASTER\n",
    );
}

// All words fit, and the fours are whole; else it is said which word is not what stands there.
fn well_formed(rt: &HostRuntime, count: usize) -> bool {
    for i in 2..count {
        if !fits(rt, i) {
            misplaced(rt, i, count);
            return false;
        }
    }
    if (count == 4) | ((count % 4 == 2) & (count > 2)) {
        return true;
    }
    misplaced(rt, count.max(2), count);
    false
}

// How many of the sheets are to come from standard input.
fn standard_inputs(rt: &HostRuntime, segments: usize) -> usize
    requires { segments ≤ 4611686018427387903 }
    ensures { result ≤ segments }
{
    let mut found = 0;
    for j in 0..segments {
        found += from_standard_input(rt, 4 * j + 4);
    }
    found
}

// ---- The path

// Reads the sheet that word i names, or says why it cannot.
fn read_sheet(rt: &HostRuntime, i: usize, sheet: &mut [u8]) -> Result<usize, Unread>
    requires { room ≡ length sheet.old }
    ensures { IfOk result (λ n. n ≤ length sheet.old) }
{
    let mut name = [0u8; WORD];
    let n = take_word(rt, i, &mut name);
    match open(rt, &name[..n]) {
        Some(mut source) => {
            planner_io::input::read_sheet(rt, &mut source, &name[..n], sheet, false)
        }
        None => Err(Unread::Failed),
    }
}

fn write_report(rt: &HostRuntime, way: Way, deadline: BitPeriods) -> u8 {
    let mut text = report_path::text_buffer();
    match report_path::report(&mut text, way, deadline) {
        Some(Reported::Accepted(n)) => planner_output::report(rt, &text, n, ACCEPTED),
        Some(Reported::Refused(n)) => planner_output::report(rt, &text, n, REFUSED),
        None => FAILED,
    }
}

// Goes over so many segments, to the end or to the first sheet that is refused, and writes what that shows.
fn cross(rt: &HostRuntime, segments: usize, deadline: BitPeriods) -> u8
    requires { segments ≤ 4611686018427387903 }
{
    let mut way = pnet_path::start();
    for j in 0..segments {
        let i = 4 * j + 2;
        let mut sheet = sheet_pieces::sheet_buffer();
        way = match read_sheet(rt, i + 2, &mut sheet) {
            Ok(n) => {
                let time = BitPeriods(number_at(rt, i).unwrap_or(0));
                pnet_path::over(way, time, &sheet[..n], sender(rt, i + 3))
            }
            Err(Unread::BadLine(line)) => pnet_path::stopped(
                way,
                Refusal {
                    no: 23,
                    place: line,
                },
            ),
            Err(Unread::Failed) => return FAILED,
        };
        if way.refused.is_some() {
            return write_report(rt, way, deadline);
        }
    }
    write_report(rt, way, deadline)
}

// Plans the path that so many words say, the program's name and `--path` among them. `DEADLINE bp` alone is a path of no segment.
pub(crate) fn plan(rt: &HostRuntime, count: usize) -> u8 {
    if !well_formed(rt, count) {
        return FAILED;
    }
    if count < 4 {
        return FAILED;
    }
    let segments = (count - 2) / 4;
    if !serves(rt, standard_inputs(rt, segments)) {
        return FAILED;
    }
    cross(rt, segments, BitPeriods(number_at(rt, 2).unwrap_or(0)))
}
