// The lines of standard input.
ghost use Rattle.std.specs.Prelude.{◌≤◌, length};

use crate::cases::try_case;
use crate::words::say;

// The place of a mark from a place on, or the line's end.
fn find(line: &[u8], from: usize, mark: u8) -> usize
    requires { from ≤ length line.now }
    ensures { (from ≤ result) × (result ≤ length line.now) }
{
    match line[from..].iter().position(|byte| *byte == mark) {
        Some(n) => from + n,
        None => line.len(),
    }
}

fn try_parts(rt: &HostRuntime, sheet: &[u8], seen: &[u8], given: &[u8]) {
    let mut s = [0u8; 1024];
    let mut c = [0u8; 1024];
    let mut room = [7u8; 5];
    let n = text_hex::put_bytes(&mut s, sheet);
    let m = text_hex::put_bytes(&mut c, seen);
    text_hex::put_bytes(&mut room, given);
    try_case(rt, &s[..n], &c[..m], &room);
}

fn try_line(rt: &HostRuntime, line: &[u8]) {
    let a = find(line, 0, b':');
    let b = find(line, a, b'|');
    let d = find(line, b, b';');
    say(rt, &line[..a]);
    if b < line.len() {
        try_parts(rt, &line[a..b], &line[b..d], &line[d..]);
    }
    say(rt, b"\n");
}

pub(crate) fn try_lines(rt: &HostRuntime, text: &[u8]) {
    let mut start = 0;
    for (i, byte) in text.iter().enumerate() {
        if *byte == b'\n' {
            try_line(rt, &text[start..i]);
            start = i + 1;
        }
    }
}
