// The report of a plan as text, page 01 'Sheets worked by hand'.
#![tactic(auto)]

ghost use Rattle.std.specs.Prelude.{◌≡◌, false, ◌≤◌, length};
ghost use Rattle.sheet_rules.specs.Whole.{reading};
ghost use Rattle.profibus_plan.specs.Planned.{plan_of as ring_plan};
ghost use Rattle.pnet_plan.specs.Planned.{planned, plan_of as segment_plan};
ghost use Rattle.worldfip_plan.specs.Answer.{plan_of as table_plan};
ghost use Rattle.text.specs.Text.{Zeros, Wrote, item, texts};
ghost use Rattle.report_phrases.specs.Phrases.{refusal_text};
ghost use Rattle.report_sheet.specs.Arrays.{master_at, segment_text};
ghost use Rattle.report_sheet.specs.Stored.{Reports};
ghost use Rattle.report_sheet.specs.Whole.{most_text, segment_report, segment_accepts, ring_report, ring_accepts, row_at, table_text, table_report, table_accepts, first_bus, report_of, accepts, answer_of, run_of};

use common::Refusal;
use report_lines::{put_head, put_master, put_ring, put_row};
use report_phrases::{Reported, put_refusal};
use text::put_word;
use units::{BitPeriods, Micros};

// No report is longer.
pub const MOST_TEXT: usize = 1_613_930;

// Room for every report.
pub fn text_buffer() -> [u8; MOST_TEXT]
    ensures { Zeros most_text result }
{
    [0; MOST_TEXT]
}

// The lines of the first n masters.
fn put_masters(
    out: &mut [u8],
    at: usize,
    bound: &[u32],
    refined: &[u32],
    rounds: &[u32],
    n: usize,
) -> usize
    requires { (n ≤ length bound.now) × (n ≤ length refined.now) × (n ≤ length rounds.now) }
    ensures { Wrote out.old at (texts (master_at (item bound.now) (item refined.now) (item rounds.now)) n) out.new result }
{
    let mut next = at;
    for i in 0..n {
        next = put_master(
            out,
            next,
            i as u64 + 1,
            BitPeriods(bound[i]),
            BitPeriods(refined[i]),
            rounds[i],
        );
    }
    next
}

fn put_segment(out: &mut [u8], bound: &[u32], refined: &[u32], rounds: &[u32], n: usize) -> usize
    requires { (n ≤ length bound.now) × (n ≤ length refined.now) × (n ≤ length rounds.now) }
    ensures { Wrote out.old 0 (segment_text (item bound.now) (item refined.now) (item rounds.now) n) out.new result }
{
    let lines = put_word(out, 0, b"P-NET segment\n");
    put_masters(out, lines, bound, refined, rounds, n)
}

// Of a refused sheet, its refusal is the whole report.
fn refuse(out: &mut [u8], refusal: Refusal) -> Reported
    ensures { Reports out.old (refusal_text refusal.no refusal.place) false out.new result }
{
    Reported::Refused(put_refusal(out, 0, refusal.no, refusal.place as u64))
}

// 32 places hold every segment, so 13 never shows.
fn segment_report(s: &[u8], out: &mut [u8]) -> Reported
    ensures { Reports out.old (segment_report (planned s.now 32 32 32)) (segment_accepts (segment_plan (planned s.now 32 32 32))) out.new result }
{
    let mut bound = [0u32; 32];
    let mut refined = [0u32; 32];
    let mut rounds = [0u32; 32];
    match pnet_plan::plan(s, &mut bound, &mut refined, &mut rounds) {
        Ok(plan) => Reported::Accepted(put_segment(out, &bound, &refined, &rounds, plan.masters)),
        Err(refusal) => refuse(out, refusal),
    }
}

fn ring_report(s: &[u8], out: &mut [u8]) -> Reported
    ensures { Reports out.old (ring_report (ring_plan (reading s.now))) (ring_accepts (ring_plan (reading s.now))) out.new result }
{
    match profibus_plan::plan(s) {
        Ok(plan) => Reported::Accepted(put_ring(out, 0, plan.rotation, plan.stream as u64)),
        Err(refusal) => refuse(out, refusal),
    }
}

// The first `count` rows.
fn put_rows(out: &mut [u8], at: usize, rows: &[u64], count: usize, names: &[u16; 64]) -> usize
    requires { count ≤ length rows.now }
    ensures { Wrote out.old at (texts (row_at (item rows.now) (item names.now)) count) out.new result }
{
    let mut next = at;
    for (m, row) in rows[..count].iter().enumerate() {
        next = put_row(out, next, m as u64, *row, names);
    }
    next
}

fn put_table(
    out: &mut [u8],
    microcycle: Micros,
    slots: u32,
    count: u32,
    rows: &[u64],
    names: &[u16; 64],
) -> usize
    requires { count ≤ length rows.now }
    ensures { Wrote out.old 0 (table_text microcycle slots count (item rows.now) (item names.now)) out.new result }
{
    let next = put_head(out, 0, microcycle, slots as u64, count as u64);
    put_rows(out, next, rows, count as usize, names)
}

// 4,096 places hold every table, so 13 never shows.
fn table_report(s: &[u8], out: &mut [u8]) -> Reported
    ensures { Reports out.old (table_report (reading s.now)) (table_accepts (table_plan (reading s.now) 4096)) out.new result }
{
    let mut table = [0u64; 4096];
    match worldfip_plan::plan(s, &mut table) {
        Ok(plan) => {
            let names = worldfip_figures::identifiers(s);
            Reported::Accepted(put_table(
                out,
                plan.microcycle,
                plan.slots,
                plan.rows,
                &table,
                &names,
            ))
        }
        Err(refusal) => refuse(out, refusal),
    }
}

// The report of a sheet whose first record is of this bus, which picks the planner.
fn put_report(s: &[u8], bus: u8, out: &mut [u8]) -> Reported
    requires { bus ≡ first_bus s.now }
    ensures { Reports out.old (report_of s.now) (accepts s.now) out.new result }
{
    if bus == 3 {
        return ring_report(s, out);
    }
    if bus == 5 {
        return table_report(s, out);
    }
    segment_report(s, out)
}

fn first_bus(s: &[u8]) -> u8
    ensures { result ≡ first_bus s.now }
{
    match sheet_reader::first(s) {
        sheet_reader::Found::One(met) => sheet_record::bus_of(met.found.kind),
        sheet_reader::Found::Refused(_) => 0,
        sheet_reader::Found::End => 0,
    }
}

// Writes the report of a sheet at the start of the lent run; later bytes keep what they had. None where the lent run is shorter than some report
// may be.
pub fn report(s: &[u8], out: &mut [u8]) -> Option<Reported>
    ensures value { result ≡ answer_of s.now (length out.old) }
    ensures out_after { out.new ≡ run_of s.now out.old }
{
    if out.len() < MOST_TEXT {
        return None;
    }
    Some(put_report(s, first_bus(s), out))
}
