// Reads a sheet from standard input, or from the file that its argument names, and writes its report to standard output. With a
// second name it lays that capture beside the sheet's bounds; both, with urgent requests first, behind a command's word too; behind the others it does what the help lists. How the call ended is
// its exit status.
#![tactic(auto)]

mod along;
mod exchange;
mod rewrite;

use planner_io::input::{Source, Unread, open, read_sheet};
use planner_io::words::{Command, WORD};
use planner_io::{help, words};
use planner_output::{ACCEPTED, FAILED, REFUSED, give_up, unless_cut};
use report_phrases::Reported;
use std::env::Env;
use std::io::IsTerminal;
use std::process::ExitCode;

// ---- Reports

fn write_report(rt: &HostRuntime, s: &[u8], urgent_first: bool) -> u8 {
    if urgent_first {
        return planner_urgent::report(rt, s);
    }
    let mut text = report_sheet::text_buffer();
    match report_sheet::report(s, &mut text) {
        Some(Reported::Accepted(n)) => planner_output::report(rt, &text, n, ACCEPTED),
        Some(Reported::Refused(n)) => planner_output::report(rt, &text, n, REFUSED),
        None => FAILED,
    }
}

// How a call ends that plans no sheet, as it could not be read or is a text that is refused.
fn report_unread(rt: &HostRuntime, unread: Unread) -> u8 {
    match unread {
        Unread::Failed => FAILED,
        Unread::BadLine(line) => planner_output::bad_line(rt, line),
    }
}

// Plans what can be read; bytes behind a full buffer change no report.
fn plan(rt: &HostRuntime, source: &mut Source, name: &[u8], urgent: bool) -> u8 {
    let mut sheet = sheet_pieces::sheet_buffer();
    match read_sheet(rt, source, name, &mut sheet, false) {
        Ok(n) => write_report(rt, &sheet[..n], urgent),
        Err(unread) => report_unread(rt, unread),
    }
}

// Does with a sheet what the command is for; no command plans it.
fn serve(rt: &HostRuntime, command: Option<Command>, source: &mut Source, name: &[u8]) -> u8 {
    match command {
        Some(Command::Urgent) => plan(rt, source, name, true),
        Some(Command::Export) => exchange::exchange(rt, source, name, false),
        Some(Command::Import) => exchange::exchange(rt, source, name, true),
        Some(Command::Rewrite) => rewrite::rewrite(rt, source, name),
        _ => plan(rt, source, name, false),
    }
}

fn serve_file(rt: &HostRuntime, command: Option<Command>, name: &[u8]) -> u8 {
    match open(rt, name) {
        Some(mut source) => serve(rt, command, &mut source, name),
        None => FAILED,
    }
}

// Reads the sheet; then the capture is heard.
fn compare(
    rt: &HostRuntime,
    sheet_source: &mut Source,
    sheet_name: &[u8],
    urgent: bool,
    source: &mut Source,
    name: &[u8],
) -> u8 {
    let mut sheet = sheet_pieces::sheet_buffer();
    match read_sheet(rt, sheet_source, sheet_name, &mut sheet, false) {
        Ok(n) => planner_beside::compare(rt, &sheet[..n], urgent, source, name),
        Err(unread) => report_unread(rt, unread),
    }
}

fn compare_files(rt: &HostRuntime, sheet_name: &[u8], urgent: bool, name: &[u8]) -> u8 {
    let Some(mut sheet_source) = open(rt, sheet_name) else {
        return FAILED;
    };
    let Some(mut source) = open(rt, name) else {
        return FAILED;
    };
    compare(rt, &mut sheet_source, sheet_name, urgent, &mut source, name)
}

// ---- Words

// No name: the sheet on standard input, unless someone sits there.
fn by_none(rt: &HostRuntime, command: Option<Command>) -> u8 {
    if rt.stdin().is_terminal() {
        help::usage(rt);
        return give_up(
            rt,
            b"\nplanner: no sheet: name a file, or - for standard input\n",
        );
    }
    serve(rt, command, &mut Source::Standard(rt.stdin()), b"-")
}

fn by_one(rt: &HostRuntime, command: Option<Command>, i: usize) -> u8 {
    let mut name = [0u8; WORD];
    let Ok(n) = rt.arg(i, &mut name) else {
        return words::too_long(rt, i);
    };
    serve_file(rt, command, &name[..n])
}

fn by_two(rt: &HostRuntime, urgent: bool, sheet: usize, capture: usize) -> u8 {
    let mut first = [0u8; WORD];
    let Ok(n) = rt.arg(sheet, &mut first) else {
        return words::too_long(rt, sheet);
    };
    let mut second = [0u8; WORD];
    let Ok(m) = rt.arg(capture, &mut second) else {
        return words::too_long(rt, capture);
    };
    compare_files(rt, &first[..n], urgent, &second[..m])
}

// One name or two, from word i on, for a command or for none: a sheet, or a sheet and a capture.
fn by_names(rt: &HostRuntime, command: Option<Command>, i: usize, count: usize) -> u8 {
    if count <= i {
        return by_none(rt, command);
    }
    let last = count - 1;
    if last - i > 1 {
        return give_up(
            rt,
            b"planner: too many words: a sheet, or a sheet and a capture; planner --help says more\n",
        );
    }
    if !words::serves(rt, words::standard_inputs(rt, i, last)) {
        return FAILED;
    }
    if i == last {
        by_one(rt, command, i)
    } else {
        let urgent = matches!(command, Some(Command::Urgent));
        by_two(rt, urgent, i, last)
    }
}

// Names with no `--` before them: one that begins as an option does is none that there is.
fn by_plain_names(rt: &HostRuntime, command: Option<Command>, first: usize, count: usize) -> u8 {
    for i in first..count {
        if words::is_option(rt, i) {
            return words::unknown(rt, i);
        }
    }
    by_names(rt, command, first, count)
}

// The name behind a command that takes one at most.
fn by_command(rt: &HostRuntime, command: Option<Command>, count: usize) -> u8 {
    if count <= 2 {
        return by_none(rt, command);
    }
    if count > 3 {
        return give_up(
            rt,
            b"planner: too many words: --export, --import and --rewrite take one name; planner --help says more\n",
        );
    }
    if words::is_option(rt, 2) {
        return words::unknown(rt, 2);
    }
    if !words::serves(rt, words::from_standard_input(rt, 2)) {
        return FAILED;
    }
    by_one(rt, command, 2)
}

// What the first word asks for.
fn by_words(rt: &HostRuntime, count: usize) -> u8 {
    let command = words::command_at(rt, 1);
    match command {
        Some(Command::Path) => along::plan(rt, count),
        Some(Command::Urgent) => by_plain_names(rt, command, 2, count),
        Some(Command::Export | Command::Import | Command::Rewrite) => by_command(
            rt, command, count,
        ),
        Some(Command::Help) => unless_cut(rt, help::help(rt), ACCEPTED),
        Some(Command::Version) => unless_cut(rt, help::version(rt), ACCEPTED),
        Some(Command::NamesOnly) => by_names(rt, None, 2, count),
        None => by_plain_names(rt, None, 1, count),
    }
}

fn main(rt: HostRuntime) -> ExitCode {
    planner_output::end(by_words(&rt, words::count(&rt)))
}
