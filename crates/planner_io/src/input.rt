// Opening a file, reading until a buffer is full, and a sheet, which may be given as bytes or as a text.
ghost use Rattle.std.specs.Prelude.{◌≡◌, List, ℕ, ◌≤◌, IfOk, length, take};
ghost use Rattle.sheet_pieces.specs.Steps.{State, room};
ghost use Rattle.planner_io.specs.Made.{Took, Made, GivenAs};

use crate::words::fail;
use planner_complaints::slips;
use planner_output::complain;
use sheet_pieces::Taken;
use std::fs::File;
use std::io::{ErrorKind, Read};
use std::rt::Stdin;
use std::{io, str};
use text::put_word;

// So many pieces of a text are counted: 64 bits count no more bytes than are in them.
const PIECES: usize = 281_474_976_710_656;

const PIECE: usize = 65_536;

// What was read: how many bytes, and why a read failed, if one did.
#[derive(Clone, Copy)]
pub struct Input {
    pub length: usize,
    pub failed: Option<io::Error>,
}

// What is read: standard input, or a file by its name, which is closed where this is dropped.
#[derive(Drop)]
pub enum Source {
    Standard(Stdin),
    Named(File),
}

fn read(source: &mut Source, buf: &mut [u8]) -> io::Result<usize>
    ensures length_in_bounds { IfOk result (λ n. n ≤ length buf.new) }
    ensures same_length { length buf.new ≡ length buf.old }
{
    match source {
        Source::Standard(input) => input.read(buf),
        Source::Named(file) => file.read(buf),
    }
}

// One read behind the first `at` bytes.
fn read_more(source: &mut Source, buf: &mut [u8], at: usize) -> Input
    requires { at ≤ length buf.old }
    ensures { (at ≤ result.length) × (result.length ≤ length buf.old) }
{
    match read(source, &mut buf[at..]) {
        Ok(n) => Input {
            length: at + n,
            failed: None,
        },
        Err(error) => Input {
            length: at,
            failed: Some(error),
        },
    }
}

// Reads until the input ends, a read fails or the buffer is full.
pub fn read_all(source: &mut Source, buf: &mut [u8]) -> Input
    ensures { result.length ≤ length buf.old }
{
    let mut at = 0;
    while at < buf.len() {
        let next = read_more(source, buf, at);
        if next.failed.is_some() {
            return next;
        }
        if next.length == at {
            return next;
        }
        at = next.length;
    }
    Input {
        length: at,
        failed: None,
    }
}

// The system's files have names of UTF-8.
fn open_named(rt: &HostRuntime, name: &[u8]) -> io::Result<File> {
    match str::from_utf8(name) {
        Ok(path) => File::open(rt, path),
        Err(_) => Err(io::Error::new(
            ErrorKind::InvalidInput,
            "no name of a file, as it is not UTF-8",
        )),
    }
}

// The file of a name, or none, and then it is said why; `-` is standard input.
pub fn open(rt: &HostRuntime, name: &[u8]) -> Option<Source> {
    if check::same(name, b"-") {
        return Some(Source::Standard(rt.stdin()));
    }
    match open_named(rt, name) {
        Ok(file) => Some(Source::Named(file)),
        Err(error) => {
            fail(rt, name, error);
            None
        }
    }
}

// ---- A sheet

// Why nothing of a sheet is kept, which was said: a read failed, or the line of this number is not of a text's form.
#[derive(Clone, Copy)]
pub enum Unread {
    Failed,
    BadLine(usize),
}

// What a text came to that was taken to its end, or to a line that is not of the form.
fn told(
    rt: &HostRuntime,
    name: &[u8],
    taken: Taken,
    front: &[u8],
    sheet: &[u8],
) -> Result<usize, Unread>
    ensures length_in_bounds { IfOk result (λ n. n ≤ length sheet.now) }
    ensures by_index { (first : List ℕ) → Took first (record { taken = taken; front = front.now; sheet = sheet.now }) → Made first sheet.now result }
{
    match sheet_pieces::end(taken) {
        Ok(kept) => {
            let length = kept.min(sheet.len());
            slips::of_sheet(rt, name, &sheet[..length]);
            Ok(length)
        }
        Err(refusal) => {
            let held = taken.held.min(front.len());
            slips::of_line(rt, name, refusal.place, &front[..held]);
            Err(Unread::BadLine(refusal.place))
        }
    }
}

// Takes a text to its end, or to a line that is not of the form, behind the first piece.
fn read_on(
    rt: &HostRuntime,
    source: &mut Source,
    name: &[u8],
    begun: Taken,
    piece: &mut [u8],
    front: &mut [u8],
    sheet: &mut [u8],
) -> Result<usize, Unread>
    ensures length_in_bounds { IfOk result (λ n. n ≤ length sheet.old) }
    ensures by_index { (first : List ℕ) → Took first (record { taken = begun; front = front.old; sheet = sheet.old }) → Made first sheet.new result }
{
    let mut taken = begun;
    for _ in 0..PIECES {
        if taken.bad {
            return told(rt, name, taken, front, sheet);
        }
        let next = read_all(source, piece);
        if let Some(error) = next.failed {
            fail(rt, name, error);
            return Err(Unread::Failed);
        }
        let end = next.length;
        taken = sheet_pieces::take(&piece[..end], taken, front, sheet);
        if end < piece.len() {
            return told(rt, name, taken, front, sheet);
        }
    }
    complain(rt, b"planner: the text is too long to be counted\n");
    Err(Unread::Failed)
}

// Reads a text, of which the first piece was read into the sheet's run, where it makes room for what the text stands for.
fn read_text(
    rt: &HostRuntime,
    source: &mut Source,
    name: &[u8],
    sheet: &mut [u8],
    n: usize,
) -> Result<usize, Unread>
    requires { (room ≡ length sheet.old) × (n ≤ length sheet.old) }
    ensures length_in_bounds { IfOk result (λ n. n ≤ length sheet.old) }
    ensures made { Made (take n sheet.old) sheet.new result }
{
    let mut piece = [0u8; PIECE];
    let end = put_word(&mut piece, 0, &sheet[..n]);
    let mut front = sheet_pieces::line_buffer();
    let taken = sheet_pieces::take(&piece[..end], sheet_pieces::start(), &mut front, sheet);
    if n < sheet.len() {
        return told(rt, name, taken, &front, sheet);
    }
    read_on(rt, source, name, taken, &mut piece, &mut front, sheet)
}

// Reads a sheet, as much as decides its report, and answers how many bytes of it are kept, or says why it cannot. What begins with one of the words of
// texts and a comma is a text, and so is all that is asked for as one.
pub fn read_sheet(
    rt: &HostRuntime,
    source: &mut Source,
    name: &[u8],
    sheet: &mut [u8],
    as_text: bool,
) -> Result<usize, Unread>
    requires { room ≡ length sheet.old }
    ensures length_in_bounds { IfOk result (λ n. n ≤ length sheet.old) }
    ensures given_as { GivenAs as_text sheet.new result }
{
    let input = read_all(source, sheet);
    if let Some(error) = input.failed {
        fail(rt, name, error);
        return Err(Unread::Failed);
    }
    let length = input.length;
    let kind = sheet_said::kind_in(&sheet[..length]);
    if as_text | (kind != 0) {
        return read_text(rt, source, name, sheet, length);
    }
    slips::of_bytes(rt, name, &sheet[..length]);
    Ok(length)
}
