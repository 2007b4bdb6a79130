// Plans the sheets of standard input, page 01 and the cases that are easy to get wrong. A line is a case: the bus in capitals, the lengths
// of the lent runs, a bar and the sheet, all numbers in hexadecimal digits. A line that begins with # is a title and is written again. The
// line for a case has the answer and what the lent runs hold then.
#![tactic(auto)]

ghost use Rattle.std.specs.Prelude.{◌≤◌, length};

use common::Refusal;
use std::io::Read;

// What each place of a WorldFIP run holds before: no sheet here has such a row.
const MARK: u64 = 0x5555555555555555;

fn say(rt: &HostRuntime, text: &[u8]) {
    let _ = rt.write_all(text);
}

fn say_with(rt: &HostRuntime, text: &[u8], n: u64) {
    say(rt, text);
    let _ = print!(rt; "{n}");
}

fn say_refused(rt: &HostRuntime, refusal: Refusal) {
    say_with(rt, b"refused ", refusal.no as u64);
    say_with(rt, b" at ", refusal.place as u64);
}

// ---- P-NET: three runs, of which every place holds 9 before

fn say_pnet(rt: &HostRuntime, answer: Result<pnet_plan::Plan, Refusal>) {
    match answer {
        Ok(plan) => {
            say_with(rt, b"masters ", plan.masters as u64);
            say_with(rt, b", streams ", plan.streams as u64);
        }
        Err(refusal) => say_refused(rt, refusal),
    }
}

fn say_figure(rt: &HostRuntime, x: u32) {
    say_with(rt, b" ", x as u64);
}

fn say_run(rt: &HostRuntime, name: &[u8], run: &[u32]) {
    say(rt, name);
    for figure in run {
        say_figure(rt, *figure);
    }
}

fn say_runs(rt: &HostRuntime, bound: &[u32], refined: &[u32], rounds: &[u32]) {
    say_run(rt, b"; R in bp", bound);
    say_run(rt, b"; W in bp", refined);
    say_run(rt, b"; rounds", rounds);
}

fn plan_pnet(
    rt: &HostRuntime,
    s: &[u8],
    bound: &mut [u32],
    refined: &mut [u32],
    rounds: &mut [u32],
) {
    say_pnet(rt, pnet_plan::plan(s, bound, refined, rounds));
    say_runs(rt, bound, refined, rounds);
}

// The length of a run, 12 at most.
fn places(asked: u8) -> usize
    ensures { result ≤ 12 }
{
    asked.min(12) as usize
}

fn pnet_case(rt: &HostRuntime, case: &[u8]) {
    if case.len() < 3 {
        return;
    }
    let a = places(case[0]);
    let b = places(case[1]);
    let c = places(case[2]);
    let mut bound = [9u32; 12];
    let mut refined = [9u32; 12];
    let mut rounds = [9u32; 12];
    plan_pnet(
        rt,
        &case[3..],
        &mut bound[..a],
        &mut refined[..b],
        &mut rounds[..c],
    );
}

// ---- PROFIBUS

fn say_profibus(rt: &HostRuntime, answer: Result<profibus_plan::Plan, Refusal>) {
    match answer {
        Ok(plan) => {
            say_with(rt, b"TTR in bp ", plan.rotation.0 as u64);
            say_with(rt, b", limited by stream ", plan.stream as u64);
        }
        Err(refusal) => say_refused(rt, refusal),
    }
}

// ---- WorldFIP: one run, of which every place holds MARK before and is shown as '-' while it does

fn say_worldfip(rt: &HostRuntime, answer: Result<worldfip_plan::Plan, Refusal>) {
    match answer {
        Ok(plan) => {
            say_with(rt, b"microcycle in us ", plan.microcycle.0);
            say_with(rt, b", slots ", plan.slots as u64);
            say_with(rt, b", rows ", plan.rows as u64);
        }
        Err(refusal) => say_refused(rt, refusal),
    }
}

fn say_row(rt: &HostRuntime, row: u64) {
    if row == MARK {
        say(rt, b" -");
    } else {
        say_with(rt, b" ", row);
    }
}

fn say_rows(rt: &HostRuntime, rows: &[u64]) {
    for row in rows {
        say_row(rt, *row);
    }
}

fn kept(rows: &[u64]) -> u64 {
    rows.iter().filter(|row| **row == MARK).count() as u64
}

// All rows in one number, by remainders of a prime.
fn folded(rows: &[u64]) -> u64 {
    let mut x: u64 = 0;
    for row in rows {
        x = (x * 65599 + *row % 4294967291) % 4294967291;
    }
    x
}

fn say_table(rt: &HostRuntime, rows: &[u64]) {
    say(rt, b";");
    if rows.len() <= 8 {
        say_rows(rt, rows);
    } else {
        say_with(rt, b" kept ", kept(rows));
        say_with(rt, b", folded ", folded(rows));
    }
}

fn say_name(rt: &HostRuntime, name: u16) {
    say_with(rt, b" ", name as u64);
}

// The first eight identifiers by rank.
fn say_names(rt: &HostRuntime, names: &[u16; 64]) {
    say(rt, b"; by rank");
    for name in &names[..8] {
        say_name(rt, *name);
    }
}

fn plan_worldfip(rt: &HostRuntime, s: &[u8], rows: &mut [u64]) {
    say_worldfip(rt, worldfip_plan::plan(s, rows));
    say_table(rt, rows);
    let names = worldfip_figures::identifiers(s);
    say_names(rt, &names);
}

// The length of the run, of which the case has the high byte first, 4,100 at most.
fn room_of(high: u8, low: u8) -> usize
    ensures { result ≤ 4100 }
{
    (high as usize * 256 + low as usize).min(4100)
}

fn worldfip_case(rt: &HostRuntime, case: &[u8]) {
    if case.len() < 2 {
        return;
    }
    let room = room_of(case[0], case[1]);
    let mut rows: [u64; 4100] = [MARK; 4100];
    plan_worldfip(rt, &case[2..], &mut rows[..room]);
}

// ---- The cases

// The second letter of the bus tells P-NET, PROFIBUS and WORLDFIP apart.
fn try_case(rt: &HostRuntime, letter: u8, case: &[u8]) {
    match letter {
        b'-' => pnet_case(rt, case),
        b'R' => say_profibus(rt, profibus_plan::plan(case)),
        _ => worldfip_case(rt, case),
    }
}

fn try_line(rt: &HostRuntime, line: &[u8]) {
    if line.len() < 2 {
        return;
    }
    if line[0] == b'#' {
        say(rt, line);
    } else {
        let mut case = [0u8; 12807];
        let n = text_hex::put_bytes(&mut case, line);
        try_case(rt, line[1], &case[..n]);
    }
    say(rt, b"\n");
}

fn try_lines(rt: &HostRuntime, text: &[u8]) {
    let mut start = 0;
    for (i, byte) in text.iter().enumerate() {
        if *byte == b'\n' {
            try_line(rt, &text[start..i]);
            start = i + 1;
        }
    }
}

// Reads standard input until it ends, a read fails or the buffer is full; how many bytes that are.
fn read_full(rt: &HostRuntime, buf: &mut [u8]) -> usize
    ensures { result ≤ length buf.new }
{
    let mut done: usize = 0;
    while done < buf.len() {
        let n = rt.stdin().read(&mut buf[done..]).unwrap_or(0);
        if n == 0 {
            return done;
        }
        done += n;
    }
    done
}

fn main(rt: HostRuntime) {
    let mut buf = [0u8; 65536];
    let n = read_full(&rt, &mut buf);
    try_lines(&rt, &buf[..n]);
}
