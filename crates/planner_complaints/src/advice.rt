// The likeliest slip in a line that is not of the form, and how it is mended.
use crate::scan::{byte_at, find, is_blank, is_digit, is_letter, is_padding, is_sheet};
use planner_output::complain;
use sheet_said::begins;

// The likeliest slips.
#[derive(Clone, Copy)]
pub(crate) enum Advice {
    Return,
    OneBlank,
    Unit,
    Quotes,
    Separators,
    Mark,
    Padded,
    Empty,
    Zero,
    Unended,
    NoBlank,
    Small,
    Ring,
    Bytes,
    Digits,
}

impl Advice {
    // How it is mended.
    fn words(self) -> &'static [u8] {
        match self {
            Advice::Return =>
                b"a line ends with LF alone: save with LF line ends, or: tr -d '\\r' < TEXT\n",
            Advice::OneBlank => b"one blank stands between a number and its unit, as in 203 bp\n",
            Advice::Unit => b"each time has its unit: bp on P-NET and PROFIBUS, us on WorldFIP\n",
            Advice::Quotes =>
                b"a cell has no quotation marks: save without them, or: tr -d '\"' < TEXT\n",
            Advice::Separators =>
                b"commas stand between cells, no semicolons and no tabs: sed 's/[;\\t]/,/g' TEXT\n",
            Advice::Mark =>
                b"a byte order mark is no part of a text: sed '1s/^\\xef\\xbb\\xbf//' TEXT\n",
            Advice::Padded =>
                b"no comma follows the last cell; spreadsheets pad rows with them: sed 's/,*$//' TEXT\n",
            Advice::Empty => b"a text has no empty line: sed 's/,*$//; /^$/d' TEXT\n",
            Advice::Zero => b"a number has no zero in front\n",
            Advice::Unended => b"the last line has no end: a newline is missing behind it\n",
            Advice::NoBlank => b"no blank stands before or behind a cell\n",
            Advice::Small => b"words have small letters only\n",
            Advice::Ring =>
                b"a ring has no longest message: each master has its own, on a line behind it\n",
            Advice::Bytes => b"this begins as the bytes of a sheet do, and a text was wanted\n",
            Advice::Digits =>
                b"a number is decimal digits alone: no sign, no point, no separator\n",
        }
    }
}

pub(crate) fn advise(rt: &HostRuntime, advice: Option<Advice>) {
    if let Some(advice) = advice {
        complain(rt, b"planner: ");
        complain(rt, advice.words());
    }
}

// ---- The likeliest slip, if there is a likely one

// At the front of a line that does not begin with a word and a comma.
pub(crate) fn advice_on_word(line: &[u8]) -> Option<Advice> {
    let first = byte_at(line, 0);
    if begins(line, b"\xef\xbb\xbf") {
        return Some(Advice::Mark);
    }
    if first == b'"' {
        return Some(Advice::Quotes);
    }
    if is_padding(line, 0) {
        return Some(Advice::Empty);
    }
    if is_sheet(line) {
        return Some(Advice::Bytes);
    }
    if is_blank(first) {
        return Some(Advice::NoBlank);
    }
    advice_on_letters(line, first)
}

pub(crate) fn advice_on_letters(line: &[u8], first: u8) -> Option<Advice> {
    let comma = find(line, 0, b',');
    if (find(line, 0, b';') < comma) | (find(line, 0, b'\t') < comma) {
        return Some(Advice::Separators);
    }
    if (b'A' <= first) & (first <= b'Z') {
        return Some(Advice::Small);
    }
    None
}

pub(crate) fn is_unit(wanted: u8) -> bool {
    (wanted == b' ') | is_letter(wanted)
}

// Where a cell or the line ends.
pub(crate) fn advice_on_end(line: &[u8], at: usize, wanted: u8) -> Option<Advice> {
    if is_unit(wanted) {
        return Some(Advice::Unit);
    }
    if (wanted == b'\n') & is_padding(line, at) {
        return Some(Advice::Padded);
    }
    if (wanted == b'\n') & begins(line, b"profibus-ring,") {
        return Some(Advice::Ring);
    }
    None
}

// Where neither ends.
pub(crate) fn advice_on_cell(byte: u8, wanted: u8, in_number: bool) -> Option<Advice> {
    if is_blank(byte) {
        return Some(if is_unit(wanted) {
            Advice::OneBlank
        } else {
            Advice::NoBlank
        });
    }
    if (wanted == b' ') & is_letter(byte) {
        return Some(Advice::OneBlank);
    }
    if in_number {
        return Some(Advice::Digits);
    }
    if is_unit(wanted) {
        return Some(Advice::Unit);
    }
    None
}

// Where this byte is wanted, and whether a number is cut off there or missing.
pub(crate) fn advice_on_slip(
    line: &[u8],
    at: usize,
    wanted: u8,
    in_number: bool,
) -> Option<Advice> {
    if line.len() <= at {
        return Some(Advice::Unended);
    }
    let byte = line[at];
    if is_digit(byte) {
        return Some(Advice::Zero);
    }
    match byte {
        b'\r' => Some(Advice::Return),
        b'"' => Some(Advice::Quotes),
        b';' => Some(Advice::Separators),
        b',' | b'\n' => advice_on_end(line, at, wanted),
        _ => advice_on_cell(byte, wanted, in_number),
    }
}
