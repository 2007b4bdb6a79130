// The report of a P-NET sheet whose urgent requests go first, page 02 'Ask 11', from the bytes of the sheet.
#![tactic(auto)]

ghost use Rattle.std.specs.Prelude.{◌≡◌, length};
ghost use Rattle.report_phrases.specs.Reports.{told};
ghost use Rattle.text.specs.Text.{over};
ghost use Rattle.report_urgent.specs.Whole.{urgent_report, urgent_accepts};

use report_phrases::{Reported, put_refusal};
use report_urgent_lines::MOST_TEXT;
use sheet_read::MOST;

// Writes the report at the start of the lent run; of a refused sheet, its refusal is the whole report.
pub fn report(s: &[u8], out: &mut [u8; MOST_TEXT]) -> Reported
    ensures { let text = urgent_report s.now in
        (result ≡ told (urgent_accepts s.now) (length text)) × (out.new ≡ over text out.old) }
{
    let mut masters = [0u8; MOST];
    let mut places = [0u32; MOST];
    let mut figures = [0u32; MOST];
    let mut rounds = [0u32; MOST];
    let mut deadlines = [0u32; MOST];
    match pnet_urgent_streams::listed(
        s,
        &mut masters,
        &mut places,
        &mut figures,
        &mut rounds,
        &mut deadlines,
    ) {
        Ok(listed) => Reported::Accepted(report_urgent_lines::put_urgent(
            out,
            listed.streams,
            &masters,
            &places,
            &figures,
            &rounds,
            &deadlines,
            listed.late,
            listed.bound,
        )),
        Err(refusal) => Reported::Refused(put_refusal(out, 0, refusal.no, refusal.place as u64)),
    }
}
