// The bounds of a P-NET sheet without a search, for a capture, page 02 'Ask 1': each stream's master, its master's R, its T and its J.
#![tactic(auto)]

ghost use Rattle.std.specs.Prelude.{◌≡◌, ℕ, ◌≤◌, length};
ghost use Rattle.common.specs.Runs.{filled};
ghost use Rattle.sheet_record.specs.Kinds.{pnet};
ghost use Rattle.sheet_rules.specs.Ready.{Ready};
ghost use Rattle.pnet_rules.specs.Segment;
ghost use Rattle.pnet_turn.specs.Turn.{at};
ghost use Rattle.pnet_plan.specs.Arrays.{segment_in, Sheeted};
ghost use Rattle.pnet_plan.specs.Planned.{plan_of, at_place};
ghost use Rattle.pnet_bounds.specs.Bounded.{bounded, bound_of, master_of, spacing_of, jitter_of, stream_run};

use common::Refusal;
use pnet_plan::Plan;
use sheet_read::MOST;

// Each stream's master, bound, spacing and jitter; turn is V.
fn by_stream(
    s: &[u8],
    first: usize,
    n: usize,
    counts: &[u8; 33],
    turn: u32,
    masters: &mut [u8],
    bound: &mut [u32],
    spacing: &mut [u32],
    jitter: &mut [u32],
)
    requires ready { Ready s.now pnet first n × (n ≤ length masters.old) × (n ≤ length bound.old) × (n ≤ length spacing.old) × (n ≤ length jitter.old) }
    requires turn_value { (turn ≡ Segment.turn (segment_in s.now)) × ((y : ℕ) → y ≤ 32 → at counts.now y ≡ Segment.count (segment_in s.now) y) }
    ensures masters_after { masters.new ≡ filled (at_place (master_of (segment_in s.now))) n masters.old }
    ensures bound_after { bound.new ≡ filled (at_place (bound_of (segment_in s.now))) n bound.old }
    ensures spacing_after { spacing.new ≡ filled (at_place (spacing_of (segment_in s.now))) n spacing.old }
    ensures jitter_after { jitter.new ≡ filled (at_place (jitter_of (segment_in s.now))) n jitter.old }
{
    let mut at = first;
    for i in 0..n {
        let met = sheet_record::pnet_stream_at(s, at);
        let r = met.found;
        masters[i] = r.a as u8;
        bound[i] = counts[r.a as usize] as u32 * turn;
        spacing[i] = r.c;
        jitter[i] = r.e;
        at = met.next;
    }
}

// The masters, bounds, spacings and jitters of the n streams of a P-NET sheet of N masters, unless 8 is given.
fn bounds_of(
    s: &[u8],
    all: usize,
    first: usize,
    n: usize,
    room: usize,
    counts: &[u8; 33],
    longests: &[u32; 33],
    masters: &mut [u8; MOST],
    bound: &mut [u32; MOST],
    spacing: &mut [u32; MOST],
    jitter: &mut [u32; MOST],
) -> Result<Plan, Refusal>
    requires { Sheeted s.now all n first counts.now longests.now × (n ≤ room) }
    ensures value { result ≡ plan_of (bounded s.now room) }
    ensures masters_after { masters.new ≡ stream_run (bounded s.now room) master_of masters.old }
    ensures bound_after { bound.new ≡ stream_run (bounded s.now room) bound_of bound.old }
    ensures spacing_after { spacing.new ≡ stream_run (bounded s.now room) spacing_of spacing.old }
    ensures jitter_after { jitter.new ≡ stream_run (bounded s.now room) jitter_of jitter.old }
{
    let found = pnet_late::judge(s, all, first, n, counts, longests);
    let late = found.late;
    if late <= n {
        return Err(Refusal { no: 8, place: late });
    }
    by_stream(
        s, first, n, counts, found.turn, masters, bound, spacing, jitter,
    );
    Ok(Plan {
        masters: all,
        streams: n,
    })
}

// The sheet that a capture is laid beside: each stream's master, bound, spacing and jitter, where `room` is the length of the shortest run lent
// for results.
pub fn bounds(
    s: &[u8],
    room: usize,
    masters: &mut [u8; MOST],
    bound: &mut [u32; MOST],
    spacing: &mut [u32; MOST],
    jitter: &mut [u32; MOST],
) -> Result<Plan, Refusal>
    ensures value { result ≡ plan_of (bounded s.now room) }
    ensures masters_after { masters.new ≡ stream_run (bounded s.now room) master_of masters.old }
    ensures bound_after { bound.new ≡ stream_run (bounded s.now room) bound_of bound.old }
    ensures spacing_after { spacing.new ≡ stream_run (bounded s.now room) spacing_of spacing.old }
    ensures jitter_after { jitter.new ≡ stream_run (bounded s.now room) jitter_of jitter.old }
{
    let mut counts: [u8; 33] = [0; 33];
    let mut longests: [u32; 33] = [0; 33];
    let sheet = sheet_read::read_gathering(s, &mut counts, &mut longests)?;
    if sheet_record::bus_of(sheet.head.kind) != 1 {
        return Err(Refusal { no: 3, place: 0 });
    }
    let streams = sheet.streams;
    if room < streams {
        return Err(Refusal {
            no: 13,
            place: streams,
        });
    }
    bounds_of(
        s,
        sheet.head.a as usize,
        sheet.first,
        streams,
        room,
        &counts,
        &longests,
        masters,
        bound,
        spacing,
        jitter,
    )
}
