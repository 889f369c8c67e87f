// The parity of a byte string of any length: its remainder on division by x^24 plus the terms of 0xFFF409.
#![tactic(auto)]

mod division;
mod lookup;

ghost use Rattle.std.specs.Prelude.{◌≡◌};
ghost use Rattle.parity.specs.Parity.{remainder, seal};

pub use division::step;
pub use lookup::shifted;

// The number whose three bytes, set behind s, make the remainder 0.
pub fn seal_of(s: &[u8]) -> u32
    ensures { result ≡ seal s.now }
{
    let mut r: u32 = 0;
    for &byte in s {
        r = step(r, byte);
    }
    r
}

// The remainder of the bytes. Of up to three it is the number that they make; more add their last three to the seal of the others.
pub fn remainder_of(s: &[u8]) -> u32
    ensures { result ≡ remainder s.now }
{
    let n = s.len();
    if n < 3 {
        return fields::number_of(s) as u32;
    }
    let (front, last) = s.split_at(n - 3);
    seal_of(front) ^ fields::number_of(last) as u32
}
