// Each stream of a P-NET sheet whose urgent requests go first, page 02 'Ask 11', for a report and for a capture.
#![tactic(auto)]

pub mod answer;

ghost use Rattle.std.specs.Prelude.{◌≡◌, ℕ, ◌-◌, ◌*◌, ◌≤◌, length, leb};
ghost use Rattle.common.specs.Runs.{filled};
ghost use Rattle.common.specs.Sums.{when};
ghost use Rattle.units.specs.Units.{bp};
ghost use Rattle.sheet_record.specs.Kinds.{pnet};
ghost use Rattle.sheet_rules.specs.Ready.{sheet_in, Ready};
ghost use Rattle.sheet_rules.specs.Whole.Outcome.{Read};
ghost use Rattle.pnet_turn.specs.Turn.{at};
ghost use Rattle.pnet_plan.specs.Arrays.{segment_in, Sheeted};
ghost use Rattle.pnet_plan.specs.Planned.{plan_of, at_place};
ghost use Rattle.pnet_bounds.specs.Bounded.{master_of, spacing_of, jitter_of, stream_run};
ghost use Rattle.pnet_urgent_rules.specs.Urgent;
ghost use Rattle.pnet_urgent_rules.specs.Planned.{urgently};
ghost use Rattle.pnet_urgent_streams.specs.Listed.{deadline_of, listed_of};

pub use answer::Listed;
use common::Refusal;
use pnet_plan::Plan;
use sheet_read::MOST;
use units::BitPeriods;

// ---- For a capture

// Each stream's master, spacing and jitter.
fn by_spacing(
    s: &[u8],
    first: usize,
    n: usize,
    masters: &mut [u8],
    spacing: &mut [u32],
    jitter: &mut [u32],
)
    requires { Ready s.now pnet first n × (n ≤ length masters.old) × (n ≤ length spacing.old) × (n ≤ length jitter.old) }
    ensures masters_after { masters.new ≡ filled (at_place (master_of (segment_in s.now))) n masters.old }
    ensures spacing_after { spacing.new ≡ filled (at_place (spacing_of (segment_in s.now))) n spacing.old }
    ensures jitter_after { jitter.new ≡ filled (at_place (jitter_of (segment_in s.now))) n jitter.old }
{
    let mut at = first;
    for i in 0..n {
        let met = sheet_record::pnet_stream_at(s, at);
        let r = met.found;
        masters[i] = r.a as u8;
        spacing[i] = r.c;
        jitter[i] = r.e;
        at = met.next;
    }
}

// The figures of a P-NET sheet of n streams, beside each one's master, spacing and jitter, unless 21 is given.
fn figures_of(
    s: &[u8],
    first: usize,
    n: usize,
    masters: &mut [u8; MOST],
    figure: &mut [u32; MOST],
    spacing: &mut [u32; MOST],
    jitter: &mut [u32; MOST],
) -> Result<Plan, Refusal>
    requires { Ready s.now pnet first n }
    ensures { let outcome = urgently s.now 800 in
        (result ≡ plan_of outcome)
        × (masters.new ≡ stream_run outcome master_of masters.old)
        × (figure.new ≡ stream_run outcome Urgent.figure figure.old)
        × (spacing.new ≡ stream_run outcome spacing_of spacing.old)
        × (jitter.new ≡ stream_run outcome jitter_of jitter.old) }
{
    let mut places = [0u32; MOST];
    let mut rounds = [0u32; MOST];
    let plan = pnet_urgent::plan(s, &mut places, figure, &mut rounds)?;
    by_spacing(s, first, n, masters, spacing, jitter);
    Ok(plan)
}

// The sheet that a capture is laid beside where urgent requests go first: each stream's master, figure, spacing and jitter, where `room` is the length of the shortest run
// lent for results.
pub fn figures(
    s: &[u8],
    room: usize,
    masters: &mut [u8; MOST],
    figure: &mut [u32; MOST],
    spacing: &mut [u32; MOST],
    jitter: &mut [u32; MOST],
) -> Result<Plan, Refusal>
    ensures value { result ≡ plan_of (urgently s.now room) }
    ensures masters_after { masters.new ≡ stream_run (urgently s.now room) master_of masters.old }
    ensures figure_after { figure.new ≡ stream_run (urgently s.now room) Urgent.figure figure.old }
    ensures spacing_after { spacing.new ≡ stream_run (urgently s.now room) spacing_of spacing.old }
    ensures jitter_after { jitter.new ≡ stream_run (urgently s.now room) jitter_of jitter.old }
{
    let sheet = sheet_read::read(s)?;
    if sheet_record::bus_of(sheet.head.kind) != 1 {
        return Err(Refusal { no: 3, place: 0 });
    }
    let streams = sheet.streams;
    if room < streams {
        return Err(Refusal {
            no: 13,
            place: streams,
        });
    }
    figures_of(s, sheet.first, streams, masters, figure, spacing, jitter)
}

// ---- For a report

// Each stream's master and deadline.
fn by_deadline(s: &[u8], first: usize, n: usize, masters: &mut [u8], deadlines: &mut [u32])
    requires { Ready s.now pnet first n × (n ≤ length masters.old) × (n ≤ length deadlines.old) }
    ensures masters_after { masters.new ≡ filled (at_place (master_of (segment_in s.now))) n masters.old }
    ensures deadlines_after { deadlines.new ≡ filled (at_place (deadline_of (segment_in s.now))) n deadlines.old }
{
    let mut at = first;
    for i in 0..n {
        let met = sheet_record::pnet_stream_at(s, at);
        let r = met.found;
        masters[i] = r.a as u8;
        deadlines[i] = r.d;
        at = met.next;
    }
}

// R of the stream that is late, and 0 where its number is past the last of n; turn is V.
fn late_bound(late: usize, n: usize, masters: &[u8], counts: &[u8; 33], turn: u32) -> BitPeriods
    requires le_late { (1 ≤ late) × (n ≤ length masters.now) × (turn ≤ 51040) }
    requires late_bound { (late ≤ n → at masters.now (late - 1) ≤ 32) × ((y : ℕ) → y ≤ 32 → at counts.now y ≤ 80) }
    ensures { result ≡ bp (when (leb late n) (at counts.now (at masters.now (late - 1)) * turn)) }
{
    if n < late {
        return BitPeriods(0);
    }
    let master = masters[late - 1] as usize;
    let own = counts[master] as u32;
    let bound = own * turn;
    BitPeriods(bound)
}

// What a report goes by of a P-NET sheet of N masters and n streams that is accepted: its streams' masters and deadlines go to their runs, and the first stream that
// first-come refuses is judged as for that.
fn beside(
    s: &[u8],
    all: usize,
    first: usize,
    n: usize,
    counts: &[u8; 33],
    longests: &[u32; 33],
    masters: &mut [u8],
    deadlines: &mut [u32],
) -> Listed
    requires { Sheeted s.now all n first counts.now longests.now × (n ≤ length masters.old) × (n ≤ length deadlines.old) }
    ensures { let outcome = Read (sheet_in s.now) in
        (Ok result ≡ listed_of outcome)
        × (masters.new ≡ stream_run outcome master_of masters.old)
        × (deadlines.new ≡ stream_run outcome deadline_of deadlines.old) }
{
    by_deadline(s, first, n, masters, deadlines);
    let found = pnet_late::judge(s, all, first, n, counts, longests);
    let late = found.late;
    let bound = late_bound(late, n, masters, counts, found.turn);
    Listed {
        streams: n,
        late,
        bound,
    }
}

// The streams of a P-NET sheet of N masters and n streams, unless 21 is given.
fn listed_of(
    s: &[u8],
    all: usize,
    first: usize,
    n: usize,
    counts: &[u8; 33],
    longests: &[u32; 33],
    masters: &mut [u8; MOST],
    places: &mut [u32; MOST],
    figure: &mut [u32; MOST],
    rounds: &mut [u32; MOST],
    deadlines: &mut [u32; MOST],
) -> Result<Listed, Refusal>
    requires { Sheeted s.now all n first counts.now longests.now }
    ensures { let outcome = urgently s.now 800 in
        (result ≡ listed_of outcome)
        × (masters.new ≡ stream_run outcome master_of masters.old)
        × (places.new ≡ stream_run outcome Urgent.place places.old)
        × (figure.new ≡ stream_run outcome Urgent.figure figure.old)
        × (rounds.new ≡ stream_run outcome Urgent.rounds rounds.old)
        × (deadlines.new ≡ stream_run outcome deadline_of deadlines.old) }
{
    pnet_urgent::plan(s, places, figure, rounds)?;
    Ok(beside(s, all, first, n, counts, longests, masters, deadlines))
}

// What a report goes by of a sheet whose urgent requests go first: each stream's master, place in its master's order, figure, rounds and deadline.
pub fn listed(
    s: &[u8],
    masters: &mut [u8; MOST],
    places: &mut [u32; MOST],
    figure: &mut [u32; MOST],
    rounds: &mut [u32; MOST],
    deadlines: &mut [u32; MOST],
) -> Result<Listed, Refusal>
    ensures { let outcome = urgently s.now 800 in
        (result ≡ listed_of outcome)
        × (masters.new ≡ stream_run outcome master_of masters.old)
        × (places.new ≡ stream_run outcome Urgent.place places.old)
        × (figure.new ≡ stream_run outcome Urgent.figure figure.old)
        × (rounds.new ≡ stream_run outcome Urgent.rounds rounds.old)
        × (deadlines.new ≡ stream_run outcome deadline_of deadlines.old) }
{
    let mut counts: [u8; 33] = [0; 33];
    let mut longests: [u32; 33] = [0; 33];
    let sheet = sheet_read::read_gathering(s, &mut counts, &mut longests)?;
    if sheet_record::bus_of(sheet.head.kind) != 1 {
        return Err(Refusal { no: 3, place: 0 });
    }
    listed_of(
        s,
        sheet.head.a as usize,
        sheet.first,
        sheet.streams,
        &counts,
        &longests,
        masters,
        places,
        figure,
        rounds,
        deadlines,
    )
}
