// The bus of page 01, 'Sheets worked by hand', simulated at its slowest: four masters, two streams each, C 203.
use crate::words::{say, say_run, say_with};

// When each stream's answer is completed, if all ask at the instant 0, when the token has just left master k.
fn run(rt: &HostRuntime, k: u8) {
    let cycle = [203u16; 8];
    let mut done = [0u64; 800];
    pnet_simulate::simulate(
        4,
        b"\x01\x01\x02\x02\x03\x03\x04\x04",
        &cycle,
        k,
        8,
        &mut done,
    );
    say_with(rt, b"the token has just left M0", k as u64);
    say_run(rt, b", completed at", 8, &done);
    say(rt, b"\n");
}

// Each master in its turn is the one that the token has just left.
pub(crate) fn runs(rt: &HostRuntime) {
    run(rt, 1);
    run(rt, 2);
    run(rt, 3);
    run(rt, 4);
}
