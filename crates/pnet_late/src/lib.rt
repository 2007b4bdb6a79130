// A P-NET sheet judged without a search: V under its edition, and the first stream that 8 is given for.
#![tactic(auto)]

ghost use Rattle.std.specs.Prelude.{◌≡◌, ℕ, ◌≤◌};
ghost use Rattle.sheet_record.specs.Kinds.{pnet};
ghost use Rattle.sheet_rules.specs.Ready.{Ready};
ghost use Rattle.pnet_rules.specs.Segment;
ghost use Rattle.pnet_turn.specs.Turn.{at};
ghost use Rattle.pnet_plan.specs.Arrays.{segment_in, Sheeted};
ghost use Rattle.pnet_plan.specs.Planned.{first_late};

// V of a sheet under its edition, and its first stream whose master's R is above its D, the number past the last where there is none.
#[derive(Clone, Copy)]
pub struct Judged {
    pub turn: u32,
    pub late: usize,
}

// The first of n streams whose master's R is above its D, and n + 1 where there is none; turn is V.
fn first_late(s: &[u8], first: usize, n: usize, counts: &[u8; 33], turn: u32) -> usize
    requires ready { Ready s.now pnet first n }
    requires turn_value { (turn ≡ Segment.turn (segment_in s.now)) × ((y : ℕ) → y ≤ 32 → at counts.now y ≡ Segment.count (segment_in s.now) y) }
    ensures { result ≡ first_late (segment_in s.now) }
{
    let mut at = first;
    for i in 0..n {
        let met = sheet_record::pnet_stream_at(s, at);
        let r = met.found;
        let bound = counts[r.a as usize] as u32 * turn;
        if r.d < bound {
            return i + 1;
        }
        at = met.next;
    }
    n + 1
}

// A P-NET sheet of N masters and n streams judged.
pub fn judge(
    s: &[u8],
    all: usize,
    first: usize,
    n: usize,
    counts: &[u8; 33],
    longests: &[u32; 33],
) -> Judged
    requires { Sheeted s.now all n first counts.now longests.now }
    ensures { (result.turn ≡ Segment.turn (segment_in s.now)) × (result.late ≡ first_late (segment_in s.now)) }
{
    let edition = sheet_read::edition(s);
    let turn = pnet_turn::turn_of(counts, longests, all, edition).0;
    let late = first_late(s, first, n, counts, turn);
    Judged { turn, late }
}
