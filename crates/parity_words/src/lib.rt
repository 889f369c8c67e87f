// The parity of a byte string of any length, four bytes at a time.
#![tactic(auto)]

mod tables;

ghost use Rattle.std.specs.Prelude.{◌≡◌};
ghost use Rattle.fields.specs.Bytes.{bytes_of};
ghost use Rattle.parity.specs.Parity.{remainder, seal};

// The remainder of the bytes. A word is added to what 32 zero bits leave of the words before it, and only the last is divided by its high byte.
pub fn remainder_of(s: &[u8]) -> u32
    ensures { result ≡ remainder s.now }
{
    let (front, words) = s.as_rchunks::<4>();
    let mut x = fields::number_of(front) as u32;
    for &word in words {
        x = tables::turned(x) ^ u32::from_be_bytes(word);
    }
    parity::step(x / 256, 0) ^ (x % 256)
}

// The seal of bytes by their remainder alone: what three zero bytes leave of it. Who has the remainder does not go over the bytes again.
pub fn seal_by(remainder: u32) -> u32
    ensures { result ≡ seal (bytes_of 3 remainder) }
{
    let [_, a, b, c] = remainder.to_be_bytes();
    remainder_of(&[a, b, c, 0, 0, 0])
}

// The number whose three bytes, set behind s, make the remainder 0.
pub fn seal_of(s: &[u8]) -> u32
    ensures { result ≡ seal s.now }
{
    seal_by(remainder_of(s))
}
