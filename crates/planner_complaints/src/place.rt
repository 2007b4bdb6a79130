// Where a line stops being the line of a record, and what is wanted there.
use crate::scan::{behind_digits, byte_at, find, first_difference, is_digit};
use sheet_line::{LINE, put_line};
use sheet_record::{Record, is_pnet_stream};
use sheet_said::guess;

// The place where a line stops being the one that it can be; the byte that is wanted there, none where a number is too big for its field or the line that it can be
// has no byte there; and whether a number is cut off there, or missing.
#[derive(Clone, Copy)]
pub(crate) struct Slip {
    pub(crate) at: usize,
    pub(crate) wanted: Option<u8>,
    pub(crate) in_number: bool,
}

// A cell's number, 0 for the word, and the place of its first byte.
#[derive(Clone, Copy)]
pub(crate) struct Cell {
    pub(crate) number: usize,
    pub(crate) start: usize,
}

// The cell that a place is in.
pub(crate) fn cell_at(line: &[u8], at: usize) -> Cell {
    let mut number: usize = 0;
    let mut start: usize = 0;
    while start < at {
        let comma = find(line, start, b',');
        if at <= comma {
            return Cell { number, start };
        }
        start = comma + 1;
        number += 1;
    }
    Cell { number, start }
}

// In a line that is a record's own and still not of the form, the first cell with a number too big: of P-NET streams the second, if not the first.
pub(crate) fn big_cell(line: &[u8], taken: Record) -> usize {
    let first = find(line, 0, b',').saturating_add(1);
    if is_pnet_stream(taken.kind) & (taken.a <= 255) {
        return find(line, first, b',').saturating_add(1);
    }
    first
}

// The byte that follows the number of a cell.
pub(crate) fn behind_number(kind: u8, cell: usize) -> u8 {
    match kind {
        1 => b'\n',
        8 => b'\n',
        5 => b' ',
        _ => { if cell == 1 { b',' } else { b' ' } }
    }
}

// A zero stands in front of another digit.
pub(crate) fn is_zero_led(line: &[u8], start: usize) -> bool {
    (byte_at(line, start) == b'0') & is_digit(byte_at(line, start.saturating_add(1)))
}

// Where the number of a cell is not the one that all its digits say: none stand in front, or a zero does, or they are too many, or something stands
// between them.
pub(crate) fn slip_in_number(line: &[u8], kind: u8, cell: Cell) -> Slip {
    let start = cell.start;
    let end = behind_digits(line, start);
    if (end == start) | is_zero_led(line, start) {
        return Slip {
            at: start,
            wanted: Some(b'0'),
            in_number: true,
        };
    }
    if end - start >= 10 {
        return Slip {
            at: start,
            wanted: None,
            in_number: true,
        };
    }
    Slip {
        at: end,
        wanted: Some(behind_number(kind, cell.number)),
        in_number: true,
    }
}

// A line that begins with a word is held against the line of the only record that it can be that of.
pub(crate) fn slip_in(line: &[u8], kind: u8) -> Slip {
    let taken = guess(line);
    let mut own = [0u8; LINE];
    let n = put_line(&mut own, 0, taken);
    let at = first_difference(line, &own);
    if at == n {
        return Slip {
            at: big_cell(line, taken),
            wanted: None,
            in_number: true,
        };
    }
    let wanted = byte_at(&own, at);
    if is_digit(wanted) | is_digit(byte_at(line, at)) {
        return slip_in_number(line, kind, cell_at(line, at));
    }
    Slip {
        at,
        // Behind that line's end stands 0.
        wanted: if wanted == 0 { None } else { Some(wanted) },
        in_number: false,
    }
}

// The greatest number that a cell's field holds: C of a P-NET stream has two bytes.
pub(crate) fn greatest(kind: u8, cell: usize) -> u64 {
    if (cell == 2) & is_pnet_stream(kind) {
        return 65_535;
    }
    if cell != 1 {
        return 4_294_967_295;
    }
    match kind {
        5 => 4_294_967_295,
        6 => 65_535,
        _ => 255,
    }
}
