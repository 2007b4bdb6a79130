// Bit periods and microseconds, page 01 'Units', and nanoseconds, page 02 'Ask 5'. P-NET runs at 76,800 bit/s, so 48 bit periods last
// 625 us, and 6 of them 78,125 ns. Each kind of count is a type of its own, and the functions below are the only way from one to another.
// To bit periods of a PROFIBUS ring, and from them, there is none.
#![tactic(auto)]

ghost use Rattle.std.specs.Prelude.{◌≡◌};
ghost use Rattle.units.specs.Units.{micros_up, nanos_up, periods_down};

// A count of P-NET bit periods (bp).
#[derive(Clone, Copy)]
pub struct BitPeriods(pub u32);

// A count of microseconds (us).
#[derive(Clone, Copy)]
pub struct Micros(pub u64);

// A count of nanoseconds (ns).
#[derive(Clone, Copy)]
pub struct Nanos(pub u64);

// A count of bit periods of a PROFIBUS ring. They are never converted: a ring's bit rate is not on its sheet.
#[derive(Clone, Copy)]
pub struct RingPeriods(pub u32);

// The least count of us that every count of bp fits: 2^32 - 1 bp, rounded up.
const ALL: u64 = 55_924_053_321;

// A bound in bp as us, rounded up.
pub fn micros_up(b: BitPeriods) -> Micros
    ensures { result ≡ micros_up b }
{
    let n = b.0 as u64;
    Micros((n * 625 + 47) / 48)
}

// A bound in bp as ns, rounded up.
pub fn nanos_up(b: BitPeriods) -> Nanos
    ensures { result ≡ nanos_up b }
{
    let n = b.0 as u64;
    Nanos((n * 78_125 + 5) / 6)
}

// A deadline in us as bp, rounded down. From ALL on, the answer is the greatest count that there is.
pub fn periods_down(u: Micros) -> BitPeriods
    ensures { result ≡ periods_down u }
{
    let n = u.0;
    if n >= ALL {
        return BitPeriods(u32::MAX);
    }
    BitPeriods((n * 48 / 625) as u32)
}
