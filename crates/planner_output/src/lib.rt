// What the program writes and how a call ends: a finished text to standard output, words to standard error, and how it ended as one byte, from
// which `main` makes the exit status.
#![tactic(auto)]

ghost use Rattle.std.specs.Prelude.{◌≡◌, ◌-◌, ◌≤◌, cond, ◌⊎◌, length, min, is_ok};
ghost use Rattle.std.specs.Process.{exit_status};

use std::fmt::InlineText;
use std::io;
use std::process::ExitCode;

// How a call of the program ends, as the digit that it says: a byte from 48 to 51. Kept as bytes: `end`, `report` and `unless_cut` promise what they do for every byte.
pub const ACCEPTED: u8 = b'0';

pub const REFUSED: u8 = b'1';

pub const FAILED: u8 = b'2';

const UNWRITTEN: u8 = b'3';

// Says how the call ended, to whoever started it: the digit's number is the exit status.
pub fn end(status: u8) -> ExitCode
    ensures { exit_status result ≡ status - 48 }
{
    ExitCode::from(status.saturating_sub(ACCEPTED))
}

pub fn complain(rt: &HostRuntime, words: &[u8]) {
    let _ = rt.stderr().write_all(words);
}

// A number among the words, in decimal digits.
pub fn complain_number(rt: &HostRuntime, n: u64) {
    let _ = eprint!(rt; "{n}");
}

// What stands behind the system's words for an error, before its number.
const NUMBER: &str = " (os error ";

// Ends a line on what failed with why it did, in the system's words.
pub fn complain_of(rt: &HostRuntime, error: io::Error) {
    let text = InlineText::<128>::of(error);
    let words = text.as_str();
    let shown = match words.rfind(NUMBER) {
        Some(end) => &words[..end],
        None => words,
    };
    complain(rt, b": ");
    complain(rt, shown.as_bytes());
    complain(rt, b"\n");
}

// Says last why a call fails, and answers how it ends.
pub fn give_up(rt: &HostRuntime, words: &[u8]) -> u8
    ensures { result ≡ 50 }
{
    complain(rt, words);
    FAILED
}

// How many bytes of a text are written, of which the first n are finished.
fn end_of(length: usize, n: usize) -> usize
    ensures { result ≡ min n length }
{
    n.min(length)
}

// Writes the first n bytes of a text, or all where it has fewer, and answers whether all of them went out, or why not.
fn put_first(to: &impl Print, text: &[u8], n: usize) -> io::Result<()> {
    let end = end_of(text.len(), n);
    to.write_all(&text[..end])
}

pub fn put(rt: &HostRuntime, text: &[u8]) -> io::Result<()> {
    rt.stdout().write_all(text)
}

// Writes a refusal's line.
pub fn put_refusal(to: &impl Print, no: u8, place: usize) -> io::Result<()> {
    let mut text = [0u8; 64];
    let n = report_phrases::put_refusal(&mut text, 0, no, place as u64);
    put_first(to, &text, n)
}

// How a call ends whose report went out whole, or did not.
pub fn unless_cut(rt: &HostRuntime, whole: io::Result<()>, status: u8) -> u8
    ensures { result ≡ cond (is_ok whole) status 51 }
{
    match whole {
        Ok(()) => status,
        Err(error) => {
            complain(rt, b"planner: standard output");
            complain_of(rt, error);
            UNWRITTEN
        }
    }
}

// Writes a finished report, the first n bytes of a text, and answers how the call ends.
pub fn report(rt: &HostRuntime, text: &[u8], n: usize, status: u8) -> u8
    ensures { result ≡ status ⊎ result ≡ 51 }
{
    unless_cut(rt, put_first(&rt.stdout(), text, n), status)
}

// Reports a text that is refused: this line of it is not of the form.
pub fn bad_line(rt: &HostRuntime, line: usize) -> u8
    ensures { result ≡ 49 ⊎ result ≡ 51 }
{
    unless_cut(rt, put_refusal(&rt.stdout(), 23, line), REFUSED)
}
