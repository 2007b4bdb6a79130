// What the program says on standard error of its inputs: bytes that are shown so that no terminal takes them for something else, and what is wrong with a
// text (`slips`). Nothing here answers anything or changes anything that is lent.
#![tactic(auto)]

mod advice;
mod place;
mod scan;
pub mod slips;

ghost use Rattle.std.specs.Prelude.{◌<◌};

use planner_output::complain;
use text::put_word;

// Four bytes show one, and a word has 4,096 at most.
const SHOWN: usize = 16_384;

// A digit of base sixteen.
fn digit(n: u8) -> u8
    requires { n < 16 }
{
    if n < 10 { 48 + n } else { 87 + n }
}

// Whether a terminal may take the byte for something else than a sign to show; those above some number may be signs of a name, and are none of a text.
fn is_strange(byte: u8, greatest: u8) -> bool {
    (byte < 32) | (byte == 127) | (byte == b'\\') | (byte > greatest)
}

fn put_shown(out: &mut [u8], at: usize, byte: u8, greatest: u8) -> usize {
    if is_strange(byte, greatest) {
        return put_word(out, at, &[b'\\', b'x', digit(byte / 16), digit(byte % 16)]);
    }
    put_word(out, at, &[byte])
}

// The bytes of a text from a place on to an end, as far as there are, strange ones by their numbers.
pub fn show(rt: &HostRuntime, text: &[u8], from: usize, n: usize, greatest: u8) {
    let mut out = [0u8; SHOWN];
    let mut at = 0;
    for byte in text.iter().take(n).skip(from) {
        at = put_shown(&mut out, at, *byte, greatest);
    }
    complain(rt, &out[..at.min(SHOWN)]);
}

// Begins a line that says something of an input; `-` is standard input.
pub fn blame(rt: &HostRuntime, name: &[u8]) {
    complain(rt, b"planner: ");
    if check::same(name, b"-") {
        complain(rt, b"standard input: ");
        return;
    }
    show(rt, name, 0, name.len(), 255);
    complain(rt, b": ");
}
