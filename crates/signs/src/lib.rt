// A number that can be below zero: its sign and its size, of 64 bits, for a longitude has 32 and no sign; and the number
// raised so that none is below zero.
#![tactic(auto)]

ghost use Rattle.std.specs.Prelude.{◌≡◌, pos, nat_abs};
ghost use Rattle.std.specs.Int.Signed.{lt_z};
ghost use Rattle.signs.specs.Raised.{raised};

// A number of 32 bits as one of 64.
pub fn widen(z: i32) -> i64
    ensures { result ≡ z }
{
    i64::from(z)
}

// Whether a number is below zero.
pub fn is_below(z: i64) -> bool
    ensures { result ≡ lt_z z (pos 0) }
{
    z.is_negative()
}

// The size of a number, of the lowest too.
pub fn size_of(z: i64) -> u64
    ensures { result ≡ nat_abs z }
{
    z.unsigned_abs()
}

// A number 2^32 up, so that none is below zero.
pub fn raise(z: i32) -> u64
    ensures { result ≡ raised z }
{
    (i64::from(z) + 0x1_0000_0000) as u64
}
