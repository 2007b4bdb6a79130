// A sheet as text, page 02 'Ask 14': export and import of the whole. A text that comes piece by piece is taken below, in sheet_pieces.
#![tactic(auto)]

ghost use Rattle.std.specs.Prelude.{◌≡◌, length};
ghost use Rattle.text.specs.Text.{Zeros, Wrote};
ghost use Rattle.sheet_rules.specs.Ready.{sheet_in};
ghost use Rattle.sheet_rules.specs.Whole.{reading};
ghost use Rattle.sheet_rules.specs.Whole.Outcome.{Read};
ghost use Rattle.sheet_text.specs.Answers.{sheet_text, most_text, export_answer, export_bytes, import_answer, import_bytes, copy_answer, copy_bytes};

use common::Refusal;
use sheet_line::{LINE, put_line};

// No text of an accepted sheet is longer.
pub const MOST_TEXT: usize = 79_968;

// ---- Export

// Room for the text of every sheet.
pub fn text_buffer() -> [u8; MOST_TEXT]
    ensures { Zeros most_text result }
{
    [0; MOST_TEXT]
}

// How long the text of an accepted sheet is.
fn text_length(s: &[u8]) -> usize
    requires { reading s.now ≡ Read (sheet_in s.now) }
    ensures { result ≡ length (sheet_text (sheet_in s.now)) }
{
    let mut line = [0u8; LINE];
    let mut n: usize = 0;
    let mut at: usize = 0;
    while at < s.len() {
        let met = sheet_record::record_at(s, at);
        n += put_line(&mut line, 0, met.found);
        at = met.next;
    }
    n
}

// Writes it at the front of a run.
fn put_text(s: &[u8], out: &mut [u8]) -> usize
    requires { reading s.now ≡ Read (sheet_in s.now) }
    ensures { Wrote out.old 0 (sheet_text (sheet_in s.now)) out.new result }
{
    let mut next: usize = 0;
    let mut from: usize = 0;
    while from < s.len() {
        let met = sheet_record::record_at(s, from);
        next = put_line(out, next, met.found);
        from = met.next;
    }
    next
}

// Writes a sheet as text at the front of a run. Refused as reading refuses, with 2 for a sheet of kind 3, or with 13, and then no byte changes.
pub fn export(s: &[u8], out: &mut [u8]) -> Result<usize, Refusal>
    ensures value { result ≡ export_answer (length out.old) s.now }
    ensures out_after { out.new ≡ export_bytes out.old s.now }
{
    let sheet = sheet_read::read(s)?;
    if !sheet_line::has_word(sheet.head.kind) {
        return Err(Refusal { no: 2, place: 0 });
    }
    let n = text_length(s);
    if out.len() < n {
        return Err(Refusal { no: 13, place: n });
    }
    Ok(put_text(s, out))
}

// ---- Import

// Writes a sheet as it is at the front of a run. Refused as reading refuses, or with 13, and then no byte changes.
fn copy(s: &[u8], out: &mut [u8]) -> Result<usize, Refusal>
    ensures value { result ≡ copy_answer (length out.old) s.now }
    ensures out_after { out.new ≡ copy_bytes out.old s.now }
{
    sheet_read::read(s)?;
    let n = s.len();
    if out.len() < n {
        return Err(Refusal { no: 13, place: n });
    }
    Ok(text::put_word(out, 0, s))
}

// Writes the sheet that a text stands for at the front of a run. Refused with 23 and a line's number, as reading refuses, or with 13, and then no byte changes.
pub fn import(text: &[u8], out: &mut [u8]) -> Result<usize, Refusal>
    ensures value { result ≡ import_answer (length out.old) text.now }
    ensures out_after { out.new ≡ import_bytes out.old text.now }
{
    let mut front = sheet_pieces::line_buffer();
    let mut sheet = sheet_pieces::sheet_buffer();
    let taken = sheet_pieces::take(text, sheet_pieces::start(), &mut front, &mut sheet);
    let n = sheet_pieces::end(taken)?;
    copy(&sheet[..n], out)
}
