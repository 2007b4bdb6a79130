// What is wrong with a text that was given as a sheet, for whoever wrote it: where a line stops being that of a record, what stands there, what was wanted,
// and the likeliest slip. It goes to standard error beside the report, which it does not change.
use crate::advice::{advice_on_slip, advice_on_word, advise};
use crate::place::{cell_at, greatest, slip_in};
use crate::scan::{byte_at, find, is_blank, is_digit, is_sheet};
use crate::{blame, show};
use planner_output::{complain, complain_number};
use sheet_line::LINE;
use sheet_record::record_at;
use sheet_said::{begins, kind_in};

// ---- Lists of words

// The form of a line of this kind; kind 3 has none.
fn form(kind: u8) -> &'static [u8] {
    match kind {
        1 => b"pnet-segment,MASTERS\n",
        2 => b"pnet-stream,MASTER,CYCLE bp,SPACING bp,DEADLINE bp\n",
        4 => b"profibus-stream,MASTER,CYCLE bp,DEADLINE bp\n",
        5 => b"worldfip-exchange,EXCHANGE us\n",
        6 => b"worldfip-variable,IDENTIFIER,PERIOD us\n",
        7 => b"pnet-jitter-stream,MASTER,CYCLE bp,SPACING bp,DEADLINE bp,JITTER bp\n",
        8 => b"pnet-edition,EDITION\n",
        9 => b"profibus-ring,MASTERS,LATENCY bp\n",
        10 => b"profibus-message,MASTER,MESSAGE bp\n",
        _ => b"\n",
    }
}

// What can be wanted at a place.
#[derive(Clone, Copy)]
enum Wanted {
    Number,
    BlankBp,
    BlankUs,
    Bp,
    Us,
    NextCell,
    LineEnd,
    Word,
}

impl Wanted {
    fn words(self) -> &'static [u8] {
        match self {
            Wanted::Number => b"a number\n",
            Wanted::BlankBp => b"a blank and the unit bp\n",
            Wanted::BlankUs => b"a blank and the unit us\n",
            Wanted::Bp => b"the unit bp\n",
            Wanted::Us => b"the unit us\n",
            Wanted::NextCell => b"a comma and the next cell\n",
            Wanted::LineEnd => b"the end of the line\n",
            Wanted::Word => b"a word of these, and a comma\n",
        }
    }
}

// ---- What is wrong

// Begins a line on the place of a slip, with what stands there to the end of its cell, but a few bytes at most.
fn show_place(rt: &HostRuntime, name: &[u8], number: usize, line: &[u8], at: usize) {
    blame(rt, name);
    complain(rt, b"line ");
    complain_number(rt, number as u64);
    complain(rt, b", column ");
    complain_number(rt, at.saturating_add(1) as u64);
    if line.len() <= at {
        complain(rt, b" is the end of the text");
        return;
    }
    if line[at] == b'\n' {
        complain(rt, b" is the end of the line");
        return;
    }
    complain(rt, b" has '");
    show_cell(rt, line, at);
    complain(rt, b"'");
}

const FEW: usize = 24;

fn show_cell(rt: &HostRuntime, line: &[u8], at: usize) {
    let comma = find(line, at.saturating_add(1), b',');
    let end = comma.min(find(line, at, b'\n'));
    if at < end {
        if end - at > FEW {
            show(rt, line, at, at + FEW, 126);
            complain(rt, b"..");
            return;
        }
    }
    show(rt, line, at, end, 126);
}

fn tell_wanted(rt: &HostRuntime, wanted: Wanted) {
    complain(rt, b"; wanted there: ");
    complain(rt, wanted.words());
}

// Times of this kind are in us, else in bp.
fn is_in_us(kind: u8) -> bool {
    (kind == 5) | (kind == 6)
}

// What is wanted in a line of this kind where its own line has this byte.
fn wanted_by(kind: u8, byte: u8) -> Wanted {
    if is_digit(byte) {
        return Wanted::Number;
    }
    match byte {
        b',' => Wanted::NextCell,
        b'\n' => Wanted::LineEnd,
        b' ' => {
            if is_in_us(kind) {
                Wanted::BlankUs
            } else {
                Wanted::BlankBp
            }
        }
        _ => {
            if is_in_us(kind) {
                Wanted::Us
            } else {
                Wanted::Bp
            }
        }
    }
}

fn tell_form(rt: &HostRuntime, kind: u8) {
    complain(rt, b"planner: the form of that line: ");
    complain(rt, form(kind));
}

// The unit of a cell's number, if it has one: masters, identifiers and editions stand first and have none.
fn say_unit(rt: &HostRuntime, kind: u8, cell: usize) {
    if (cell == 1) & (kind != 5) {
        return;
    }
    if is_in_us(kind) {
        complain(rt, b" us");
        return;
    }
    complain(rt, b" bp");
}

// ---- A line that is not of the form

fn tell_word(rt: &HostRuntime, name: &[u8], number: usize, line: &[u8]) {
    show_place(rt, name, number, line, 0);
    tell_wanted(rt, Wanted::Word);
    complain(
        rt,
        b"planner: pnet-segment, pnet-stream, profibus-stream, worldfip-exchange, worldfip-variable, pnet-jitter-stream, pnet-edition, profibus-ring, profibus-message\n",
    );
    advise(rt, advice_on_word(line));
}

fn tell_big(rt: &HostRuntime, name: &[u8], number: usize, line: &[u8], kind: u8, at: usize) {
    show_place(rt, name, number, line, at);
    complain(rt, b"; a number too big for its field, at most ");
    let cell = cell_at(line, at);
    complain_number(rt, greatest(kind, cell.number));
    say_unit(rt, kind, cell.number);
    complain(rt, b" there\n");
    tell_form(rt, kind);
}

fn tell_slip(rt: &HostRuntime, name: &[u8], number: usize, line: &[u8], kind: u8) {
    let slip = slip_in(line, kind);
    let at = slip.at;
    let Some(wanted) = slip.wanted else {
        tell_big(rt, name, number, line, kind, at);
        return;
    };
    show_place(rt, name, number, line, at);
    tell_wanted(rt, wanted_by(kind, wanted));
    tell_form(rt, kind);
    advise(rt, advice_on_slip(line, at, wanted, slip.in_number));
}

// Says of a line, by its number, why it is not of the form; of a long one its front is enough.
pub fn of_line(rt: &HostRuntime, name: &[u8], number: usize, line: &[u8]) {
    let kind = kind_in(line);
    if kind == 0 {
        tell_word(rt, name, number, line);
    } else {
        tell_slip(rt, name, number, line, kind);
    }
}

// ---- A sheet that is refused

// The number of the line of a text whose record has the byte at a place of the sheet.
fn line_of_byte(s: &[u8], place: usize) -> usize {
    let mut line: usize = 1;
    let mut at: usize = 0;
    while at < place {
        let met = record_at(s, at);
        let next = met.next;
        if place < next {
            return line;
        }
        if next <= at {
            return line;
        }
        at = next;
        line = line.saturating_add(1);
    }
    line
}

fn tell_byte(rt: &HostRuntime, name: &[u8], s: &[u8], place: usize) {
    blame(rt, name);
    complain(rt, b"byte ");
    complain_number(rt, place as u64);
    if s.len() <= place {
        complain(
            rt,
            b" is where the sheet ends, behind the last line of the text\n",
        );
        return;
    }
    complain(rt, b" of the sheet is line ");
    complain_number(rt, line_of_byte(s, place) as u64);
    complain(rt, b" of the text\n");
}

// Says of the sheet that a text stands for, if its reading is refused, which line that is.
pub fn of_sheet(rt: &HostRuntime, name: &[u8], s: &[u8]) {
    if let Err(refusal) = sheet_read::read(s) {
        tell_byte(rt, name, s, refusal.place);
    }
}

// ---- Bytes that look like a text

// It ends a line or spaces one, or stands on a screen.
fn is_shown(byte: u8) -> bool {
    is_blank(byte) | (byte == b'\n') | (byte == b'\r') | ((byte > 31) & (byte != 127))
}

fn all_shown(line: &[u8]) -> bool {
    line.iter().all(|byte| is_shown(*byte))
}

// It begins as a word, a cell or a saved text does.
fn may_begin(line: &[u8]) -> bool {
    let first = byte_at(line, 0);
    ((first > 31) & (first < 127)) | (first == b'\t') | begins(line, b"\xef\xbb\xbf")
}

// Says of a first line that looks like a text's what it lacks.
fn tell_first(rt: &HostRuntime, name: &[u8], line: &[u8]) {
    if may_begin(line) & all_shown(line) {
        blame(rt, name);
        complain(
            rt,
            b"taken for bytes, as it does not begin with a word and a comma\n",
        );
        tell_word(rt, name, 1, line);
    }
}

// The same of a sheet that was taken for bytes and begins with no record.
pub fn of_bytes(rt: &HostRuntime, name: &[u8], s: &[u8]) {
    if is_sheet(s) {
        return;
    }
    let front = find(s, 0, b'\n').saturating_add(1).min(LINE);
    tell_first(rt, name, &s[..front.min(s.len())]);
}
