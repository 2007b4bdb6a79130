// Rewriting a sheet, page 02 'Ask 8': one of kind 3, which is read and no longer written, becomes one of kinds 9 and 10 with the same meaning.
#![tactic(auto)]

ghost use Rattle.std.specs.Prelude.{true, ◌++◌, ◌≡◌, ◌+◌, ◌*◌, ◌≤◌, length};
ghost use Rattle.sheet_record.specs.Kinds.{written, size_of, encode};
ghost use Rattle.text.specs.Text.{Wrote};
ghost use Rattle.sheet_rewrite.specs.Meaning.{Rewrites};
ghost use Rattle.sheet_rewrite.specs.Rewriting.{front_bytes, fill_answer, fill_bytes, rewrite_answer, rewrite_bytes};

use common::Refusal;
use sheet_record::Record;
use sheet_write::put_free;
use text::put_word;

// Writes a record that the writer puts, where there is room, and answers the place just after it.
fn put_one(out: &mut [u8], at: usize, r: Record) -> usize
    requires kind_value { written r.kind ≡ true }
    requires kind_in_bounds { at + size_of r.kind ≤ length out.old }
    ensures { Wrote out.old at (encode r) out.new result }
{
    // There is room.
    put_free(out, at, r).unwrap_or(at)
}

// Writes a ring of kind 3 at the front of a run, without its M, and then M for each master, ascending.
fn put_ring(out: &mut [u8], ring: Record) -> usize
    requires kind_value { ring.kind ≡ 3 }
    requires a_in_bounds { 6 + 6 * ring.a ≤ length out.old }
    ensures { Wrote out.old 0 (front_bytes ring ring.a) out.new result }
{
    let open = Record {
        kind: 9,
        a: ring.a,
        b: ring.b,
        c: 0,
        d: 0,
        e: 0,
    };
    let mut at = put_one(out, 0, open);
    for master in 1..=ring.a {
        let message = Record {
            kind: 10,
            a: master,
            b: ring.c,
            c: 0,
            d: 0,
            e: 0,
        };
        at = put_one(out, at, message);
    }
    at
}

// Writes a ring of kind 3 as one of kinds 9 and 10, with its streams behind it. Refused with 13, and then no byte changes.
fn renew(ring: Record, streams: &[u8], out: &mut [u8]) -> Result<usize, Refusal>
    requires kind_value { ring.kind ≡ 3 }
    requires a_bound { ring.a ≤ 32 }
    requires streams_len_bound { length streams.now ≤ 12804 }
    ensures value { result ≡ fill_answer (length out.old) (front_bytes ring ring.a ++ streams.now) }
    ensures out_after { out.new ≡ fill_bytes out.old (front_bytes ring ring.a ++ streams.now) }
{
    let n = 6 + 6 * (ring.a as usize) + streams.len();
    if out.len() < n {
        return Err(Refusal { no: 13, place: n });
    }
    let at = put_ring(out, ring);
    Ok(put_word(out, at, streams))
}

// Writes bytes as they are at the front of a run. Refused with 13, and then no byte changes.
fn copy(s: &[u8], out: &mut [u8]) -> Result<usize, Refusal>
    ensures value { result ≡ fill_answer (length out.old) s.now }
    ensures out_after { out.new ≡ fill_bytes out.old s.now }
{
    let n = s.len();
    if out.len() < n {
        return Err(Refusal { no: 13, place: n });
    }
    Ok(put_word(out, 0, s))
}

// Writes an accepted sheet at the front of a run: one of kind 3 as kinds 9 and 10, with the same meaning, any other as it is. Refused as reading refuses, or with 13
// and the new sheet's length, and then no byte changes.
pub fn rewrite(s: &[u8], out: &mut [u8]) -> Result<usize, Refusal>
    ensures value { result ≡ rewrite_answer (length out.old) s.now }
    ensures out_after { out.new ≡ rewrite_bytes out.old s.now }
    ensures rewrites { Rewrites s.now result out.new }
{
    let sheet = sheet_read::read(s)?;
    if sheet.head.kind != 3 {
        return copy(s, out);
    }
    renew(sheet.head, &s[sheet.first..], out)
}
