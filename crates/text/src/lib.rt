// Words and numbers as text, written into a lent run from a place on. What does not fit is left out. Each function answers the
// place just after what it wrote.
#![tactic(auto)]

ghost use Rattle.std.specs.Prelude.{◌≡◌};
ghost use Rattle.text.specs.Text.{Wrote, places, width_of, decimal, counted};

pub fn put_word(out: &mut [u8], at: usize, word: &[u8]) -> usize
    ensures { Wrote out.old at word.now out.new result }
{
    // First, so that a word of one byte is one store: by a count of 0 or 1 it is a call of memset.
    if out.len() <= at {
        return at;
    }
    let stored = word.len().min(out.len() - at);
    // Byte by byte: most words are short, and `copy_from_slice` of two lent runs calls memmove, which no archive for C needs otherwise.
    for j in 0..stored {
        out[at + j] = word[j];
    }
    at + stored
}

// The last k digits of n.
pub fn put_places(out: &mut [u8], at: usize, k: usize, n: u64) -> usize
    ensures { Wrote out.old at (places k n) out.new result }
{
    let count = k.min(out.len().saturating_sub(at));
    let mut rest = n;
    for j in (0..k).rev() {
        if j < count {
            out[at + j] = b'0' + (rest % 10) as u8;
        }
        rest /= 10;
    }
    at + count
}

fn width(n: u64) -> usize
    ensures { result ≡ width_of n }
{
    let mut k = 1;
    let mut rest = n / 10;
    while rest > 0 {
        k += 1;
        rest /= 10;
    }
    k
}

fn put_number(out: &mut [u8], at: usize, n: u64) -> usize
    ensures { Wrote out.old at (decimal n) out.new result }
{
    let k = width(n);
    put_places(out, at, k, n)
}

// A number between words.
pub fn put_counted(out: &mut [u8], at: usize, before: &[u8], n: u64, after: &[u8]) -> usize
    ensures { Wrote out.old at (counted before.now n after.now) out.new result }
{
    let number = put_word(out, at, before);
    let rest = put_number(out, number, n);
    put_word(out, rest, after)
}
