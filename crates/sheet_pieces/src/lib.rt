// A sheet as text, page 02 'Ask 14': a text may be long, and comes piece by piece: `start`, `take` each piece, `end`. What is kept between is one line and the
// front of the sheet, in two runs that the caller lends.
#![tactic(auto)]

ghost use Rattle.std.specs.Prelude.{◌≡◌, ◌≤◌, length};
ghost use Rattle.text.specs.Text.{Zeros};
ghost use Rattle.sheet_pieces.specs.Steps;
ghost use Rattle.sheet_pieces.specs.Steps.{started, room, held_more, front_with, kept_more, sheet_more, stepped, steps, ended_as};

use common::Refusal;
use sheet_line::LINE;
use sheet_record::Record;
use sheet_said::record_in;

// So many bytes decide how a sheet is read.
const ENOUGH: usize = 12_820;

// That, and one record more.
pub const KEPT: usize = 12_836;

// Where a text is: the number of the line under way, from 1, and how many bytes of it are held; how many bytes of the sheet are kept; and whether that
// line is not of the form, which no later one changes.
#[derive(Clone, Copy)]
pub struct Taken {
    pub line: usize,
    pub held: usize,
    pub kept: usize,
    pub bad: bool,
}

// Room for a line.
pub fn line_buffer() -> [u8; LINE]
    ensures { Zeros 96 result }
{
    [0; LINE]
}

// Room for what decides a sheet.
pub fn sheet_buffer() -> [u8; KEPT]
    ensures { Zeros room result }
{
    [0; KEPT]
}

// Nothing is read yet.
pub fn start() -> Taken
    ensures { result ≡ started }
{
    Taken {
        line: 1,
        held: 0,
        kept: 0,
        bad: false,
    }
}

// Holds a byte more of the line under way, and answers how many are held.
fn hold(front: &mut [u8], held: usize, byte: u8) -> usize
    ensures value { result ≡ held_more front.old held }
    ensures front_after { front.new ≡ front_with front.old held byte }
{
    if held < front.len() {
        front[held] = byte;
        return held + 1;
    }
    front.len()
}

// Keeps a record more of the sheet, and answers how many bytes are kept.
fn keep(sheet: &mut [u8], at: usize, r: Record) -> usize
    ensures value { result ≡ kept_more sheet.old at r }
    ensures sheet_after { sheet.new ≡ sheet_more sheet.old at r }
{
    if ENOUGH <= at {
        return at;
    }
    sheet_write::put_free(sheet, at, r).unwrap_or(at)
}

// The line under way has its end.
fn end_line(t: Taken, front: &[u8], sheet: &mut [u8]) -> Taken
    requires { t.held ≤ length front.now }
    ensures value { result ≡ (Steps.ended_with (record { taken = t; front = front.now; sheet = sheet.old })).taken }
    ensures sheet_after { sheet.new ≡ (Steps.ended_with (record { taken = t; front = front.now; sheet = sheet.old })).sheet }
{
    let held = t.held;
    let r = record_in(&front[..held]);
    if r.kind == 0 {
        return Taken {
            line: t.line,
            held,
            kept: t.kept,
            bad: true,
        };
    }
    Taken {
        line: t.line.saturating_add(1),
        held: 0,
        kept: keep(sheet, t.kept, r),
        bad: false,
    }
}

// One byte more of the text.
fn step(t: Taken, byte: u8, front: &mut [u8], sheet: &mut [u8]) -> Taken
    ensures value { result ≡ (stepped (record { taken = t; front = front.old; sheet = sheet.old }) byte).taken }
    ensures front_after { front.new ≡ (stepped (record { taken = t; front = front.old; sheet = sheet.old }) byte).front }
    ensures sheet_after { sheet.new ≡ (stepped (record { taken = t; front = front.old; sheet = sheet.old }) byte).sheet }
{
    if t.bad {
        return t;
    }
    let held = hold(front, t.held, byte);
    let more = Taken {
        line: t.line,
        held,
        kept: t.kept,
        bad: false,
    };
    if byte != b'\n' {
        return more;
    }
    end_line(more, front, sheet)
}

// Takes a piece, the next of the text behind those of which `t` and the runs keep what is needed.
pub fn take(piece: &[u8], t: Taken, front: &mut [u8], sheet: &mut [u8]) -> Taken
    ensures value { result ≡ (steps (record { taken = t; front = front.old; sheet = sheet.old }) piece.now).taken }
    ensures front_after { front.new ≡ (steps (record { taken = t; front = front.old; sheet = sheet.old }) piece.now).front }
    ensures sheet_after { sheet.new ≡ (steps (record { taken = t; front = front.old; sheet = sheet.old }) piece.now).sheet }
{
    let mut taken = t;
    for &byte in piece {
        taken = step(taken, byte, front, sheet);
    }
    taken
}

// What the text comes to whose last piece was taken: a sheet, of which so many bytes are kept. Refused with 23 and the number of the first line that is not of the
// form.
pub fn end(t: Taken) -> Result<usize, Refusal>
    ensures { result ≡ ended_as t }
{
    let place = t.line;
    if t.bad | (0 < t.held) {
        return Err(Refusal { no: 23, place });
    }
    Ok(t.kept)
}
