// What the sheet of one segment of a path says, page 02 'Ask 4': R of the master that sends there, without a search.
#![tactic(auto)]

ghost use Rattle.std.specs.Prelude.{◌≡◌, leb};
ghost use Rattle.common.specs.Sums.{when};
ghost use Rattle.pnet_turn.specs.Turn.{at};
ghost use Rattle.pnet_plan.specs.Arrays.{Sheeted};
ghost use Rattle.pnet_sender.specs.Sender.{sound, sender_of};

use common::Refusal;
use units::BitPeriods;

// How many streams a master has; one above 32 has none.
fn streams_of(counts: &[u8; 33], master: u8) -> u8
    ensures { result ≡ when (leb master 32) (at counts.now master) }
{
    if master > 32 {
        return 0;
    }
    counts[master as usize]
}

// R of the master that sends on a P-NET segment of N masters and n streams, unless 8 is given.
fn bound_by(
    s: &[u8],
    all: usize,
    first: usize,
    n: usize,
    counts: &[u8; 33],
    longests: &[u32; 33],
    master: u8,
) -> Result<BitPeriods, Refusal>
    requires { Sheeted s.now all n first counts.now longests.now }
    ensures { result ≡ sender_of (sound s.now) master }
{
    let found = pnet_late::judge(s, all, first, n, counts, longests);
    let late = found.late;
    if n < late {
        let own = streams_of(counts, master) as u32;
        let bound = own * found.turn;
        return Ok(BitPeriods(bound));
    }
    Err(Refusal { no: 8, place: late })
}

// The sheet of one segment of a path, and R of the master that sends there: 0 for a master that it does not have, or that has no
// streams.
pub fn bound_of(s: &[u8], master: u8) -> Result<BitPeriods, Refusal>
    ensures { result ≡ sender_of (sound s.now) master }
{
    let mut counts: [u8; 33] = [0; 33];
    let mut longests: [u32; 33] = [0; 33];
    let sheet = sheet_read::read_gathering(s, &mut counts, &mut longests)?;
    if sheet_record::bus_of(sheet.head.kind) != 1 {
        return Err(Refusal { no: 3, place: 0 });
    }
    bound_by(
        s,
        sheet.head.a as usize,
        sheet.first,
        sheet.streams,
        &counts,
        &longests,
        master,
    )
}
