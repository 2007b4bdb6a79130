// The record format of a sheet, page 01 'Sheet records' and page 02 'Ask 7', 'Ask 8' and 'Ask 10': reading one record.
#![tactic(auto)]

ghost use Rattle.std.specs.Prelude.{◌≡◌, ◌+◌, ◌≤◌, ◌<◌, ◌^◌, length, get_or};
ghost use Rattle.sheet_record.specs.Numbers.{be};
ghost use Rattle.sheet_record.specs.Kinds;
ghost use Rattle.sheet_record.specs.Kinds.{pnet, profibus, worldfip, bus_of, is_first, fields_of, is_stream_of, met_at, met_of, stream_met, nothing};
ghost use Rattle.sheet_record.specs.Widths.{width_at, Wide};

// One record: its kind, and its fields in the order of the page. A field that the kind does not have is 0.
#[derive(Clone, Copy)]
pub struct Record {
    pub kind: u8,
    pub a: u32,
    pub b: u32,
    pub c: u32,
    pub d: u32,
    pub e: u32,
}

// What the records before one set for it: the masters N or n, and the longest message M of its master.
#[derive(Clone, Copy)]
pub struct Given {
    pub masters: u32,
    pub message: u32,
}

// The record at a place, and the place just after it.
#[derive(Clone, Copy)]
pub struct Met {
    pub found: Record,
    pub next: usize,
}

// The number in the w bytes from a place, the highest first.
fn number(s: &[u8], at: usize, w: usize) -> u32
    requires { (w ≤ 4) × (at + w ≤ length s.now) }
    ensures { (result ≡ be s.now at w) × (result < 256 ^ w) }
{
    let mut x: u32 = 0;
    for &byte in &s[at..at + w] {
        x = x * 256 + byte as u32;
    }
    x
}

// The page's table has a line for this kind.
pub fn known(kind: u8) -> bool
    ensures { result ≡ Kinds.known kind }
{
    (1 <= kind) & (kind <= 10)
}

// The bus of a kind, by the kind of its first record; 0 where the kind is not known.
pub fn bus_of(kind: u8) -> u8
    ensures { result ≡ bus_of kind }
{
    match kind {
        1 => 1,
        2 => 1,
        3 => 3,
        4 => 3,
        5 => 5,
        6 => 5,
        7 => 1,
        8 => 1,
        9 => 3,
        10 => 3,
        _ => 0,
    }
}

// A sheet begins with this kind.
pub fn is_first(kind: u8) -> bool
    ensures { result ≡ is_first kind }
{
    (kind == 1) | ((kind == 3) | ((kind == 5) | (kind == 9)))
}

// No record at a place.
fn nothing_at(at: usize) -> Met
    ensures { result ≡ record { found = nothing; next = at } }
{
    let found = Record {
        kind: 0,
        a: 0,
        b: 0,
        c: 0,
        d: 0,
        e: 0,
    };
    Met { found, next: at }
}

// The record at a place whose kind has fields of these widths, if it ends within the sheet.
fn whole_at(s: &[u8], at: usize, wa: usize, wb: usize, wc: usize, wd: usize, we: usize) -> Met
    requires at_in_bounds { at < length s.now }
    requires wide { Wide (get_or s.now at 0) wa wb wc wd we }
    ensures { result ≡ met_at s.now at }
{
    if s.len() - at < 1 + wa + wb + wc + wd + we {
        return nothing_at(at);
    }
    let at_a = at + 1;
    let at_b = at_a + wa;
    let at_c = at_b + wb;
    let at_d = at_c + wc;
    let at_e = at_d + wd;
    let found = Record {
        kind: s[at],
        a: number(s, at_a, wa),
        b: number(s, at_b, wb),
        c: number(s, at_c, wc),
        d: number(s, at_d, wd),
        e: number(s, at_e, we),
    };
    Met {
        found,
        next: at_e + we,
    }
}

// The record of a kind at a place and the place just after it; nothing, and the place itself, where no whole record of that kind stands.
// Nothing is added to a place that is past the end, so any place may be asked. The widths stand here as constants, a line for each kind,
// so that each is read without a loop; where the kind asked for is a constant too, one line is left.
pub fn record_of(s: &[u8], at: usize, kind: u8) -> Met
    ensures { result ≡ met_of s.now at kind }
{
    if s.len() <= at {
        return nothing_at(at);
    }
    if s[at] != kind {
        return nothing_at(at);
    }
    match kind {
        1 => whole_at(s, at, 1, 0, 0, 0, 0),
        2 => whole_at(s, at, 1, 2, 4, 4, 0),
        3 => whole_at(s, at, 1, 4, 4, 0, 0),
        4 => whole_at(s, at, 1, 4, 4, 0, 0),
        5 => whole_at(s, at, 4, 0, 0, 0, 0),
        6 => whole_at(s, at, 2, 4, 0, 0, 0),
        7 => whole_at(s, at, 1, 2, 4, 4, 4),
        8 => whole_at(s, at, 1, 0, 0, 0, 0),
        9 => whole_at(s, at, 1, 4, 0, 0, 0),
        10 => whole_at(s, at, 1, 4, 0, 0, 0),
        _ => nothing_at(at),
    }
}

// The record at a place, of whatever kind, and the place just after it.
pub fn record_at(s: &[u8], at: usize) -> Met
    ensures { result ≡ met_at s.now at }
{
    if s.len() <= at {
        return nothing_at(at);
    }
    record_of(s, at, s[at])
}

// A P-NET stream is of this kind.
pub fn is_pnet_stream(kind: u8) -> bool
    ensures { result ≡ is_stream_of pnet kind }
{
    (kind == 2) | (kind == 7)
}

// The bytes of J, which no other kind has.
fn jitter_width(kind: u8) -> usize
    ensures { result ≡ width_at (fields_of kind) 4 }
{
    if kind == 7 { 4 } else { 0 }
}

// The P-NET stream at a place and the place just after it; nothing, and the place itself, where none stands whole. All that a planner meets of
// a sheet's streams comes from one function, that of its bus. One row of widths serves both kinds: with a line of `record_of` for each, the
// function was too long to be taken into the planner's loop.
pub fn pnet_stream_at(s: &[u8], at: usize) -> Met
    ensures { result ≡ stream_met s.now at pnet }
{
    if s.len() <= at {
        return nothing_at(at);
    }
    let kind = s[at];
    if is_pnet_stream(kind) {
        return whole_at(s, at, 1, 2, 4, 4, jitter_width(kind));
    }
    nothing_at(at)
}

// The same of PROFIBUS.
pub fn ring_stream_at(s: &[u8], at: usize) -> Met
    ensures { result ≡ stream_met s.now at profibus }
{
    record_of(s, at, 4)
}

// And of WorldFIP, whose streams are variables.
pub fn variable_at(s: &[u8], at: usize) -> Met
    ensures { result ≡ stream_met s.now at worldfip }
{
    record_of(s, at, 6)
}
