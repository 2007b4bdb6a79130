// What the table of a WorldFIP sheet goes by, page 01 'WorldFIP table': microcycle, slots and rows, and the variables by rank; or the refusal that comes before any row
// is built.
#![tactic(auto)]

mod periods;

ghost use Rattle.std.specs.Prelude.{◌≡◌};
ghost use Rattle.common.specs.Runs.{tab};
ghost use Rattle.sheet_record.specs.Kinds.{worldfip};
ghost use Rattle.sheet_rules.specs.Whole.{reading};
ghost use Rattle.sheet_rules.specs.Ready.{sheet_in, Ready};
ghost use Rattle.worldfip_figures.specs.Declares.{traffic_of};
ghost use Rattle.worldfip_figures.specs.Figures.{figures_of, identifier_of};
ghost use Rattle.worldfip_figures.specs.Held.{held, Sheeted, measured, Gathered};

use common::Refusal;
use periods::{by_rank, in_rows, microcycle, names_by_rank, rows_of};
use units::Micros;

// What a table has, and the variables by rank: their places in the sheet, from 0, and their periods in rows. Past the last rank stands 0.
#[derive(Clone, Copy)]
pub struct Figures {
    pub variables: usize,
    pub microcycle: Micros,
    pub slots: u32,
    pub rows: u32,
    pub places: [usize; 64],
    pub periods: [u32; 65],
}

// 10, 11, in this order, and then the figures of n periods.
fn measure(ps: &[u32], n: usize, e: u32) -> Result<Figures, Refusal>
    requires { Sheeted ps.now n e }
    ensures { result ≡ measured (held ps.now n e) }
{
    let c = microcycle(ps, n);
    if c < e {
        return Err(Refusal { no: 10, place: 0 });
    }
    let rows = rows_of(ps, n, c);
    if 4096 < rows {
        return Err(Refusal { no: 11, place: 0 });
    }
    let places = by_rank(ps, n);
    let periods = in_rows(ps, &places, n, c);
    let slots = c / e;
    let cycle = c as u64;
    Ok(Figures {
        variables: n,
        microcycle: Micros(cycle),
        slots,
        rows,
        places,
        periods,
    })
}

// ---- The sheet

// The variables of a sheet, in sheet order.
#[derive(Clone, Copy)]
struct Variables {
    names: [u16; 64],
    periods: [u32; 64],
}

fn gather(s: &[u8], first: usize, n: usize) -> Variables
    requires { Ready s.now worldfip first n }
    ensures { Gathered (traffic_of (sheet_in s.now)) result.names result.periods }
{
    let mut names: [u16; 64] = [0u16; 64];
    let mut periods: [u32; 64] = [0u32; 64];
    let mut at = first;
    for i in 0..n {
        let met = sheet_record::variable_at(s, at);
        let r = met.found;
        names[i] = r.a as u16;
        periods[i] = r.b;
        at = met.next;
    }
    Variables { names, periods }
}

// What the table of a WorldFIP sheet goes by, or the refusal.
pub fn figures_of(s: &[u8]) -> Result<Figures, Refusal>
    ensures { result ≡ figures_of (reading s.now) }
{
    let sheet = sheet_read::read(s)?;
    let head = sheet.head;
    if sheet_record::bus_of(head.kind) != 5 {
        return Err(Refusal { no: 3, place: 0 });
    }
    let v = gather(s, sheet.first, sheet.streams);
    let periods = v.periods;
    measure(&periods, sheet.streams, head.a)
}

// The identifiers of a WorldFIP sheet by rank, and 0 past the last rank; all 0 for bytes that are no WorldFIP sheet.
pub fn identifiers(s: &[u8]) -> [u16; 64]
    ensures { result ≡ tab (identifier_of (reading s.now)) 64 }
{
    let Ok(sheet) = sheet_read::read(s) else {
        return [0u16; 64];
    };
    if sheet_record::bus_of(sheet.head.kind) != 5 {
        return [0u16; 64];
    }
    let streams = sheet.streams;
    let v = gather(s, sheet.first, streams);
    let names = v.names;
    let periods = v.periods;
    let places = by_rank(&periods, streams);
    names_by_rank(&names, &places, streams)
}
