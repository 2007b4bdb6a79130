// Reading a whole sheet, page 01 'Sheet records' and 'Numbered refusals' 1..7, and page 02 'Ask 7', 'Ask 8' and 'Ask 10'.
#![tactic(auto)]

ghost use Rattle.std.specs.Prelude.{◌≡◌, ◌&&◌, get_or, replicate};
ghost use Rattle.sheet_record.specs.Kinds.{bus_of, is_stream_of, in_range};
ghost use Rattle.sheet_judge.specs.Own.{as_bus};
ghost use Rattle.sheet_rules.specs.Ready.{edition_at};
ghost use Rattle.sheet_read.specs.Steps.{given_to, Begun, Opened, Settles};
ghost use Rattle.sheet_rules.specs.Whole.{reading};
ghost use Rattle.sheet_read.specs.Told.{told, counts_told, longests_told, messages_told};

use common::Refusal;
pub use sheet_keep::MOST;
use sheet_record::{Given, Record};

// What reading answers of a sheet that it accepts: the first record, the number of streams, and the place of the first of them.
#[derive(Clone, Copy)]
pub struct Accepted {
    pub head: Record,
    pub streams: usize,
    pub first: usize,
}

// What the settings of a sheet come to, which stand between its first record and its streams: the place just after them, and whether a master's longest
// message is missing.
#[derive(Clone, Copy)]
struct Settings {
    at: usize,
    lacks: bool,
}

// A stream of a bus with every field in its range, by how many masters there are and what longest message counts for each. Only a ring asks for a message, and
// with its bus apart here the others are spared it.
#[inline(always)]
fn stream_ranged(bus: u8, masters: u32, messages: &[u32; 33], r: Record) -> bool
    ensures { result ≡ (is_stream_of (as_bus bus) r.kind && in_range (given_to masters messages.now r.a) r) }
{
    let message = sheet_messages::message_of(messages, r.a);
    let given = Given { masters, message };
    if bus == 3 {
        return sheet_judge::stream_in_range(3, given, r);
    }
    sheet_judge::stream_in_range(bus, given, r)
}

// Reads the streams of a bus behind a first record and settings that passed, up to the sheet's end or the first refusal.
#[inline(always)]
fn read_streams(
    s: &[u8],
    head: Record,
    bus: u8,
    first: usize,
    messages: &[u32; 33],
    lacks: bool,
    counted: &mut [u8; 33],
    longest: &mut [u32; 33],
    handed: &mut [u32; 33],
) -> Result<Accepted, Refusal>
    requires opened { Opened s.now head first messages.now lacks }
    requires is_bus { bus ≡ bus_of head.kind }
    ensures value { result ≡ told s.now (reading s.now) }
    ensures counted_after { counted.new ≡ counts_told (reading s.now) counted.old }
    ensures longest_after { longest.new ≡ longests_told (reading s.now) longest.old }
    ensures handed_after { handed.new ≡ messages_told (reading s.now) handed.old }
{
    let mut counts: [u8; 33] = [0; 33];
    let mut longests: [u32; 33] = [0; 33];
    let mut ids: [u32; 64] = [0; 64];
    let mut n: usize = 0;
    let mut at = first;
    while at < s.len() {
        let kind = s[at];
        let right = sheet_judge::is_stream(bus, kind);
        // Before the record is read, so that the compiler knows its kind where it reads it.
        sheet_judge::judge(kind, right, true, true, at)?;
        let met = sheet_judge::stream_at(s, at, bus);
        let stream = met.found;
        let ranged = stream_ranged(bus, head.a, messages, stream);
        sheet_judge::judge(kind, right, met.next != at, ranged, at)?;
        if lacks {
            return Err(Refusal { no: 20, place: at });
        }
        sheet_keep::judge(&counts, &ids, n, stream, at)?;
        sheet_keep::keep(&mut counts, &mut longests, &mut ids, n, stream);
        n += 1;
        at = met.next;
    }
    let end = s.len();
    if lacks {
        return Err(Refusal { no: 20, place: end });
    }
    if n == 0 {
        return Err(Refusal { no: 6, place: end });
    }
    let accepted = Accepted {
        head,
        streams: n,
        first,
    };
    if bus == 5 {
        return Ok(accepted);
    }
    *counted = counts;
    *longest = longests;
    *handed = *messages;
    Ok(accepted)
}

// Passes the edition, which stands behind a P-NET segment.
fn pass_edition(s: &[u8], head: Record, first: usize) -> Result<Settings, Refusal>
    requires begun { Begun s.now head first }
    requires kind_value { (head.kind ≡ 1) × (get_or s.now first 0 ≡ 8) }
    ensures { Settles s.now head (replicate 33 head.c) result }
{
    let met = sheet_record::record_of(s, first, 8);
    let given = Given {
        masters: head.a,
        message: head.c,
    };
    let ranged = sheet_ranges::in_range_of(8, given, met.found);
    sheet_judge::judge(8, true, met.next != first, ranged, first)?;
    Ok(Settings {
        at: met.next,
        lacks: false,
    })
}

// Passes the longest messages, which stand behind a ring that has none itself: each master's once. Those that are given are kept, at place y that of
// master y.
fn pass_messages(
    s: &[u8],
    head: Record,
    first: usize,
    messages: &mut [u32; 33],
) -> Result<Settings, Refusal>
    requires begun { Begun s.now head first }
    requires kind_value { head.kind ≡ 9 }
    requires messages_value { messages.old ≡ replicate 33 0 }
    ensures { Settles s.now head messages.new result }
{
    let given = Given {
        masters: head.a,
        message: 0,
    };
    let mut at = first;
    while sheet_judge::stands(s, at, 10) {
        let met = sheet_record::record_of(s, at, 10);
        let message = met.found;
        let ranged = sheet_ranges::in_range_of(10, given, message);
        sheet_judge::judge(10, true, met.next != at, ranged, at)?;
        let master = message.a as usize;
        if messages[master] != 0 {
            return Err(Refusal { no: 20, place: at });
        }
        messages[master] = message.b;
        at = met.next;
    }
    let lacks = sheet_messages::lacks(messages, head.a);
    sheet_messages::count_missing(messages);
    Ok(Settings { at, lacks })
}

// Passes the settings of a sheet, and tells the longest message that counts for each master.
fn pass_settings(
    s: &[u8],
    head: Record,
    first: usize,
    messages: &mut [u32; 33],
) -> Result<Settings, Refusal>
    requires { Begun s.now head first }
    ensures { Settles s.now head messages.new result }
{
    let kind = head.kind;
    // M of kind 3 holds for every master; the other kinds have none, and 0 there.
    *messages = [head.c; 33];
    if kind == 9 {
        return pass_messages(s, head, first, messages);
    }
    if kind == 1 {
        if sheet_judge::stands(s, first, 8) {
            return pass_edition(s, head, first);
        }
    }
    Ok(Settings {
        at: first,
        lacks: false,
    })
}

// Reads what stands behind a first record that passed: the settings, where there are some, and the streams.
fn read_behind(
    s: &[u8],
    head: Record,
    first: usize,
    counts: &mut [u8; 33],
    longests: &mut [u32; 33],
    handed: &mut [u32; 33],
) -> Result<Accepted, Refusal>
    requires { Begun s.now head first }
    ensures value { result ≡ told s.now (reading s.now) }
    ensures counts_after { counts.new ≡ counts_told (reading s.now) counts.old }
    ensures longests_after { longests.new ≡ longests_told (reading s.now) longests.old }
    ensures handed_after { handed.new ≡ messages_told (reading s.now) handed.old }
{
    let mut messages: [u32; 33] = [0; 33];
    let settings = pass_settings(s, head, first, &mut messages)?;
    // A call for each bus, each taken in here: the bus is a constant in two, and the third has what is left, so each has its own loop. One loop for all takes half
    // as long again.
    let bus = sheet_record::bus_of(head.kind);
    match bus {
        1 => read_streams(
            s,
            head,
            1,
            settings.at,
            &messages,
            settings.lacks,
            counts,
            longests,
            handed,
        ),
        3 => read_streams(
            s,
            head,
            3,
            settings.at,
            &messages,
            settings.lacks,
            counts,
            longests,
            handed,
        ),
        _ => read_streams(
            s,
            head,
            bus,
            settings.at,
            &messages,
            settings.lacks,
            counts,
            longests,
            handed,
        ),
    }
}

// What a whole sheet is: accepted, or refused with a number and a place. One pass reads it and gathers what the planners ask of a master: it
// hands over, where the sheet is accepted, at place k the number of master k's streams, the longest C of them, and its longest message.
pub fn read_whole(
    s: &[u8],
    counts: &mut [u8; 33],
    longests: &mut [u32; 33],
    messages: &mut [u32; 33],
) -> Result<Accepted, Refusal>
    ensures value { result ≡ told s.now (reading s.now) }
    ensures counts_after { counts.new ≡ counts_told (reading s.now) counts.old }
    ensures longests_after { longests.new ≡ longests_told (reading s.now) longests.old }
    ensures messages_after { messages.new ≡ messages_told (reading s.now) messages.old }
{
    if s.len() == 0 {
        return Err(Refusal { no: 1, place: 0 });
    }
    let kind = s[0];
    let met = sheet_record::record_at(s, 0);
    let head = met.found;
    let right = sheet_record::is_first(kind);
    let none = Given {
        masters: 0,
        message: 0,
    };
    let ranged = sheet_ranges::in_range(none, head);
    sheet_judge::judge(kind, right, met.next != 0, ranged, 0)?;
    read_behind(s, head, met.next, counts, longests, messages)
}

// The same for callers that need no longest messages, as those of P-NET.
pub fn read_gathering(
    s: &[u8],
    counts: &mut [u8; 33],
    longests: &mut [u32; 33],
) -> Result<Accepted, Refusal>
    ensures value { result ≡ told s.now (reading s.now) }
    ensures counts_after { counts.new ≡ counts_told (reading s.now) counts.old }
    ensures longests_after { longests.new ≡ longests_told (reading s.now) longests.old }
{
    let mut messages: [u32; 33] = [0; 33];
    read_whole(s, counts, longests, &mut messages)
}

// The same for callers that need no longest C, as those of PROFIBUS.
pub fn read_ring(
    s: &[u8],
    counts: &mut [u8; 33],
    messages: &mut [u32; 33],
) -> Result<Accepted, Refusal>
    ensures value { result ≡ told s.now (reading s.now) }
    ensures counts_after { counts.new ≡ counts_told (reading s.now) counts.old }
    ensures messages_after { messages.new ≡ messages_told (reading s.now) messages.old }
{
    let mut longests: [u32; 33] = [0; 33];
    read_whole(s, counts, &mut longests, messages)
}

// The same for callers that need nothing of its masters.
pub fn read(s: &[u8]) -> Result<Accepted, Refusal>
    ensures { result ≡ told s.now (reading s.now) }
{
    let mut counts: [u8; 33] = [0; 33];
    let mut longests: [u32; 33] = [0; 33];
    read_gathering(s, &mut counts, &mut longests)
}

// The edition of the P-NET rule that an accepted P-NET sheet is by: 1, unless a record says so just behind the first.
pub fn edition(s: &[u8]) -> u32
    ensures { result ≡ edition_at s.now }
{
    let met = sheet_record::record_of(s, 2, 8);
    if met.next == 2 { 1 } else { met.found.a }
}
