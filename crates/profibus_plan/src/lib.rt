// The PROFIBUS planner, page 01 'PROFIBUS rotation time', and page 02 'Ask 8'.
#![tactic(auto)]

pub mod answer;

ghost use Rattle.std.specs.Prelude.{◌≡◌, ℕ, ◌≤◌, get_or};
ghost use Rattle.common.specs.Runs.{tab};
ghost use Rattle.common.specs.Sums.{upto};
ghost use Rattle.sheet_record.specs.Kinds.{profibus};
ghost use Rattle.sheet_rules.specs.Whole.{reading};
ghost use Rattle.sheet_rules.specs.Ready.{sheet_in, Ready};
ghost use Rattle.sheet_rules.specs.Whole.Outcome.{Read};
ghost use Rattle.profibus_rules.specs.Ring.{ring_of, count, messages};
ghost use Rattle.profibus_plan.specs.Planned.{plan_of};

pub use answer::Plan;
use common::Refusal;
use units::RingPeriods;

// The longest deadline of a sheet. No stream bears a rotation as long, since C is at least 1.
const LONGEST: u64 = 1000000000;

// The longest messages of masters 1..n together.
fn together(messages: &[u32; 33], n: u32) -> u64
    requires { (n ≤ 32) × ((y : ℕ) → 1 ≤ y → y ≤ n → get_or messages.now y 0 ≤ 100000) }
    ensures { result ≡ upto (λ y. get_or messages.now y 0) n }
{
    let last = n as usize;
    let mut total: u64 = 0;
    for m in &messages[1..last + 1] {
        total += *m as u64;
    }
    total
}

// The largest TTR, or the first stream that fails at L. A stream shares out its D only where it fails at the rotation that all
// before it bear; so the first to bear less than L allows is the first that fails at L, and of equals the first is kept.
fn largest_target(
    s: &[u8],
    first: usize,
    streams: usize,
    counts: &[u8; 33],
    latency: u64,
    longest: u64,
) -> Result<Plan, Refusal>
    requires ready { Ready s.now profibus first streams }
    requires counts_value { counts.now ≡ tab (count (ring_of (sheet_in s.now))) 33 }
    requires latency_value { (latency ≡ (ring_of (sheet_in s.now)).latency) × (longest ≡ messages (ring_of (sheet_in s.now))) }
    ensures { result ≡ plan_of (Read (sheet_in s.now)) }
{
    let shortest = latency + longest;
    let mut borne = LONGEST;
    let mut limiting: usize = 0;
    let mut at = first;
    for i in 0..streams {
        let met = sheet_record::ring_stream_at(s, at);
        let r = met.found;
        let master = r.a as usize;
        let h = counts[master] as u64;
        let c = r.b as u64;
        let d = r.c as u64;
        at = met.next;
        if d < h * borne + c {
            if d < h * shortest + c {
                return Err(Refusal {
                    no: 9,
                    place: i + 1,
                });
            }
            borne = (d - c) / h;
            limiting = i + 1;
        }
    }
    let rotation = RingPeriods((borne - longest) as u32);
    Ok(Plan {
        rotation,
        stream: limiting,
    })
}

// The largest rotation target of a PROFIBUS sheet, or the refusal.
pub fn plan(s: &[u8]) -> Result<Plan, Refusal>
    ensures { result ≡ plan_of (reading s.now) }
{
    let mut counts: [u8; 33] = [0; 33];
    let mut messages: [u32; 33] = [0; 33];
    let sheet = sheet_read::read_ring(s, &mut counts, &mut messages)?;
    let head = sheet.head;
    if sheet_record::bus_of(head.kind) != 3 {
        return Err(Refusal { no: 3, place: 0 });
    }
    let longest = together(&messages, head.a);
    largest_target(
        s,
        sheet.first,
        sheet.streams,
        &counts,
        head.b as u64,
        longest,
    )
}
