// Numbers as a user enters them.
#![tactic(auto)]

ghost use Rattle.std.specs.Prelude.{◌≡◌, ◌+◌, ◌-◌, ◌*◌, ◌≤◌, min};
ghost use Rattle.text_entry.specs.Entered.{entered_of, with_byte};

// One digit more, as far as 32 bits go.
fn with_digit(n: u32, digit: u8) -> u32
    requires { (48 ≤ digit) × (digit ≤ 57) }
    ensures { result ≡ min (n * 10 + (digit - 48)) 4294967295 }
{
    let next = n as u64 * 10 + (digit - 48) as u64;
    next.min(u32::MAX as u64) as u32
}

// The number with one byte more behind it: another digit, as far as 32 bits go; what is no digit changes nothing.
pub fn with_byte(n: u32, byte: u8) -> u32
    ensures { result ≡ with_byte n byte }
{
    if (byte < 48) | (byte > 57) {
        return n;
    }
    with_digit(n, byte)
}

// The number that a word of decimal digits says, if it is one; one that 32 bits do not hold is the greatest that they hold.
pub fn number(word: &[u8]) -> Option<u32>
    ensures { result ≡ entered_of word.now }
{
    if word.len() == 0 {
        return None;
    }
    let mut n: u32 = 0;
    for &digit in word {
        if (digit < 48) | (digit > 57) {
            return None;
        }
        n = with_digit(n, digit);
    }
    Some(n)
}
