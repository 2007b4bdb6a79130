// The lines of page 01 'Units', the bound that rounding to the nearest us would get wrong, and bounds in ns, page 02 'Ask 5'.
#![tactic(auto)]

use units::{BitPeriods, Micros};

fn say(rt: &HostRuntime, text: &[u8]) {
    let _ = rt.write_all(text);
}

fn say_number(rt: &HostRuntime, n: u64) {
    let _ = print!(rt; "{n}");
}

fn up(rt: &HostRuntime, n: u32) {
    say_number(rt, n as u64);
    say(rt, b" bp, up: ");
    say_number(rt, units::micros_up(BitPeriods(n)).0);
    say(rt, b" us\n");
}

fn up_ns(rt: &HostRuntime, n: u32) {
    say_number(rt, n as u64);
    say(rt, b" bp, up: ");
    say_number(rt, units::nanos_up(BitPeriods(n)).0);
    say(rt, b" ns\n");
}

fn down(rt: &HostRuntime, n: u64) {
    say_number(rt, n);
    say(rt, b" us, down: ");
    say_number(rt, units::periods_down(Micros(n)).0 as u64);
    say(rt, b" bp\n");
}

fn main(rt: HostRuntime) {
    up(&rt, 0);
    up(&rt, 1);
    up(&rt, 48);
    up(&rt, 2000);
    down(&rt, 26041);
    down(&rt, 26042);
    up(&rt, 48001);
    // The ends of the 32-bit numbers, and a deadline that is longer than 32 bits of bp can say.
    up(&rt, 4294967295);
    down(&rt, 4294967295);
    down(&rt, 18446744073709551615);
    up_ns(&rt, 0);
    up_ns(&rt, 1);
    up_ns(&rt, 6);
    up_ns(&rt, 1000);
    up_ns(&rt, 4294967295);
}
