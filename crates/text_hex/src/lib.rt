// Bytes from hexadecimal digits, as the cases of test programs are written.
#![tactic(auto)]

ghost use Rattle.std.specs.Prelude.{◌≡◌, List, ◌∷◌, ℕ, ◌+◌, ◌≤◌, min, length};
ghost use Rattle.std.proofs.lemmas.List.Edits.{sets};
ghost use Rattle.text_hex.specs.Hex.{value_of, said, bytes_in};

// How many bytes are stored, and the high digit of the next one, 16 for none.
#[derive(Clone, Copy)]
struct Stored {
    n: usize,
    high: u8,
}

// The value of a hexadecimal digit, and 16 for any other byte.
fn digit(b: u8) -> u8
    ensures { result ≡ value_of b }
{
    if b < 48 {
        return 16;
    }
    if b <= 57 {
        return b - 48;
    }
    if b < 97 {
        return 16;
    }
    if b <= 102 {
        return b - 87;
    }
    16
}

// One byte of the text more, behind n bytes stored and a high digit.
fn step(out: &mut [u8], n: usize, high: u8, b: u8) -> Stored
    requires { (n ≤ length out.old) × (high ≤ 16) }
    ensures n_in_bounds { (result.n ≤ length out.old) × (result.high ≤ 16) }
    ensures by_index { (t : List ℕ) → sets out.new result.n (said result.high t) ≡ sets out.old n (said high (b ∷ t)) }
    ensures by_index_2 { (t : List ℕ) → min (result.n + length (said result.high t)) (length out.old) ≡ min (n + length (said high (b ∷ t))) (length out.old) }
{
    let v = digit(b);
    if 16 <= v {
        return Stored { n, high };
    }
    if 16 <= high {
        return Stored { n, high: v };
    }
    if out.len() <= n {
        return Stored { n, high: 16 };
    }
    out[n] = high * 16 + v;
    Stored { n: n + 1, high: 16 }
}

// Stores the bytes that a text says at the front of a lent run, and answers how many. What does not fit is left out.
pub fn put_bytes(out: &mut [u8], text: &[u8]) -> usize
    ensures value { result ≡ min (length (bytes_in text.now)) (length out.old) }
    ensures out_after { out.new ≡ sets out.old 0 (bytes_in text.now) }
{
    let mut n: usize = 0;
    let mut high: u8 = 16;
    for &b in text {
        let next = step(out, n, high, b);
        n = next.n;
        high = next.high;
    }
    n
}
