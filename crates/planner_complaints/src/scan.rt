// Looking at the bytes of a line.
ghost use Rattle.std.specs.Prelude.{◌≤◌, length};

use sheet_record::known;

// The byte at a place, 0 where there is none.
pub(crate) fn byte_at(line: &[u8], at: usize) -> u8 {
    line.get(at).copied().unwrap_or(0)
}

pub(crate) fn is_digit(byte: u8) -> bool {
    (b'0' <= byte) & (byte <= b'9')
}

pub(crate) fn is_letter(byte: u8) -> bool {
    (b'a' <= byte) & (byte <= b'z')
}

pub(crate) fn is_blank(byte: u8) -> bool {
    (byte == b' ') | (byte == b'\t')
}

// It begins as the bytes of a sheet do. A tab is the number of kind 9, too; in a ring the highest byte of its latency, which is 0, stands two places behind it.
pub(crate) fn is_sheet(line: &[u8]) -> bool {
    let first = byte_at(line, 0);
    known(first) & ((first != b'\t') | (byte_at(line, 2) == 0))
}

// The first place from one on where a byte stands, the end if it stands nowhere.
pub(crate) fn find(line: &[u8], from: usize, byte: u8) -> usize
    ensures { from ≤ result }
{
    match line.iter().skip(from).position(|b| *b == byte) {
        Some(n) => from + n,
        None => from.max(line.len()),
    }
}

// The first place from one on where no comma stands.
pub(crate) fn behind_commas(line: &[u8], from: usize) -> usize {
    match line.iter().skip(from).position(|b| *b != b',') {
        Some(n) => from + n,
        None => from.max(line.len()),
    }
}

// The first place from one on where no digit stands.
pub(crate) fn behind_digits(line: &[u8], from: usize) -> usize
    ensures { from ≤ result }
{
    match line.iter().skip(from).position(|b| !is_digit(*b)) {
        Some(n) => from + n,
        None => from.max(line.len()),
    }
}

// There is nothing from a place on but commas.
pub(crate) fn is_padding(line: &[u8], from: usize) -> bool {
    let behind = byte_at(line, behind_commas(line, from));
    (behind == b'\n') | (behind == b'\r') | (behind == 0)
}

// The first place where two lines differ, or the end of the one that the other goes on behind.
pub(crate) fn first_difference(a: &[u8], b: &[u8]) -> usize {
    let shorter = a.len().min(b.len());
    a.iter().zip(b).position(|(x, y)| x != y).unwrap_or(shorter)
}
