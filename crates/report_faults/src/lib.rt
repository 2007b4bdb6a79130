// What is wrong in a tester's capture beside the bounds of a P-NET sheet, page 02 'Ask 1', as the last lines of its report say it. What does
// not fit into the lent run is left out; each function that writes answers the place just after what it wrote.
#![tactic(auto)]

ghost use Rattle.std.specs.Prelude.{◌≡◌, ◌≤◌, min};
ghost use Rattle.text.specs.Text.{Wrote, item};
ghost use Rattle.report_faults.specs.Faults;
ghost use Rattle.report_faults.specs.Faults.{streams_line, soon_line, ages_lines, silence_line, fault_lines, clean, last_lines};

use sheet_read::MOST;
use text::{put_counted, put_word};

// More than 800 streams count as 800.
pub fn shown(streams: usize) -> usize
    ensures { result ≡ min streams 800 }
{
    streams.min(MOST)
}

// How many of the first n streams have a figure other than 0 in a run.
fn exceeding(run: &[u64; MOST], n: usize) -> u64
    requires { n ≤ 800 }
    ensures { result ≡ Faults.exceeding (item run.now) n }
{
    run[..n].iter().filter(|figure| **figure != 0).count() as u64
}

// The index of the first of them.
fn first(run: &[u64; MOST], n: usize) -> u64
    requires { n ≤ 800 }
    ensures { result ≡ Faults.first (item run.now) n }
{
    run[..n].iter().position(|figure| *figure != 0).unwrap_or(n) as u64
}

// Behind the words, how many streams have a figure other than 0 in a run, and the first; nothing where none has.
fn put_found(out: &mut [u8], at: usize, words: &[u8], run: &[u64; MOST], n: usize) -> usize
    requires { n ≤ 800 }
    ensures { Wrote out.old at (streams_line words.now (item run.now) n) out.new result }
{
    let count = exceeding(run, n);
    if count == 0 {
        return at;
    }
    let lowest = first(run, n) + 1;
    let next = put_counted(out, at, words, count, b" streams, first stream ");
    put_counted(out, next, b"", lowest, b"\n")
}

fn put_soon(out: &mut [u8], at: usize, soon: u64, whose: u32) -> usize
    ensures { Wrote out.old at (soon_line soon whose) out.new result }
{
    if soon == 0 {
        return at;
    }
    let next = put_counted(
        out,
        at,
        b"requests sooner than their spacing allows ",
        soon,
        b" times, first stream ",
    );
    put_counted(out, next, b"", whose as u64, b"\n")
}

// Requests open for too long and requests that came too soon. Records that are far apart hide how long and how soon, so that is said instead.
fn put_ages(
    out: &mut [u8],
    at: usize,
    late: &[u64; MOST],
    soon: u64,
    whose: u32,
    broken: bool,
    n: usize,
) -> usize
    requires { n ≤ 800 }
    ensures { Wrote out.old at (ages_lines (item late.now) soon whose broken n) out.new result }
{
    if broken {
        return put_word(
            out,
            at,
            b"records not in order of time, or none for 2147483648 bp 27962026666667 ns or longer: ages and gaps not known\n",
        );
    }
    let next = put_found(out, at, b"requests open beyond the bound in ", late, n);
    put_soon(out, next, soon, whose)
}

fn put_silence(out: &mut [u8], at: usize, answers: &[u64; MOST], n: usize) -> usize
    requires { n ≤ 800 }
    ensures { Wrote out.old at (silence_line (item answers.now) n) out.new result }
{
    let heard = exceeding(answers, n);
    if heard == 0 {
        return put_word(out, at, b"no answer in the whole capture\n");
    }
    at
}

// Whatever is wrong, a line for each.
fn put_faults(
    out: &mut [u8],
    at: usize,
    answers: &[u64; MOST],
    above: &[u64; MOST],
    late: &[u64; MOST],
    soon: u64,
    whose: u32,
    broken: bool,
    n: usize,
) -> usize
    requires { n ≤ 800 }
    ensures { Wrote out.old at (fault_lines (item above.now) (item late.now) (item answers.now) soon whose broken n) out.new result }
{
    let ages = put_found(out, at, b"answers above the bound in ", above, n);
    let silence = put_ages(out, ages, late, soon, whose, broken, n);
    put_silence(out, silence, answers, n)
}

// Whether nothing is wrong. The last lines go by this.
pub fn is_clean(
    streams: usize,
    answers: &[u64; MOST],
    above: &[u64; MOST],
    late: &[u64; MOST],
    soon: u64,
    broken: bool,
) -> bool
    ensures { result ≡ clean (item above.now) (item late.now) (item answers.now) soon broken (min streams 800) }
{
    let n = shown(streams);
    let over = exceeding(above, n);
    let open = exceeding(late, n);
    let heard = exceeding(answers, n);
    (over == 0) & (open == 0) & (soon == 0) & !broken & (heard != 0)
}

// What is wrong, or that nothing is.
pub fn put_last(
    out: &mut [u8],
    at: usize,
    streams: usize,
    answers: &[u64; MOST],
    above: &[u64; MOST],
    late: &[u64; MOST],
    soon: u64,
    whose: u32,
    broken: bool,
) -> usize
    ensures { Wrote out.old at (last_lines (item above.now) (item late.now) (item answers.now) soon whose broken (min streams 800)) out.new result }
{
    if is_clean(streams, answers, above, late, soon, broken) {
        return put_word(out, at, b"every answer within its bound\n");
    }
    let n = shown(streams);
    put_faults(out, at, answers, above, late, soon, whose, broken, n)
}
