// Amounts with a sign bit: speeds, vertical rates and height differences, by one rule.
ghost use Rattle.std.specs.Prelude.{◌≡◌, ◌<◌, ◌^◌};
ghost use Rattle.readings.specs.Amounts.{signed, times, speed_at, speed_of, rate_at, rate_of, difference_at, difference_of};

use crate::signed::less;
use refusals::Refusal;

// Three types of one shape, since each names its unit. West and south are below zero.
#[derive(Clone, Copy)]
pub enum Speed {
    Unknown,
    Knots(i32),
    Over,
}

// Down is below zero.
#[derive(Clone, Copy)]
pub enum Rate {
    Unknown,
    FeetPerMinute(i32),
    Over,
}

// GNSS height less pressure altitude.
#[derive(Clone, Copy)]
pub enum Difference {
    Unknown,
    Feet(i32),
    Over,
}

#[tactic(auto, unfolding(crate::specs::Amounts::signed))]
fn with_sign(sign: u8, n: u32) -> i32
    requires { n < 2 ^ 31 }
    ensures { result ≡ signed sign n }
{
    if sign == 1 { less(0, n) } else { less(n, 0) }
}

#[tactic(auto, unfolding(crate::specs::Amounts::times))]
fn times_of(subtype: u8) -> u32
    ensures { (result ≡ times subtype) × (result < 5) }
{
    match subtype {
        2 | 4 => 4,
        _ => 1,
    }
}

// The speed of a code of 10 bits with its direction bit, in a message of this subtype. An airspeed has direction 0.
#[tactic(auto, unfolding(crate::specs::Amounts::speed_at))]
pub(crate) fn speed_at(subtype: u8, direction: u8, code: u16) -> Speed
    ensures { result ≡ speed_at subtype direction code }
{
    match code {
        0 => Speed::Unknown,
        1023 => Speed::Over,
        _ => Speed::Knots(with_sign(direction, times_of(subtype) * u32::from(code - 1))),
    }
}

// The same of a code, a direction bit and a subtype within their bits; a wider one is refused.
#[tactic(auto, unfolding(crate::specs::Amounts::speed_of, crate::specs::Amounts::amount))]
pub fn speed_of(subtype: u8, direction: u8, code: u16) -> Result<Speed, Refusal>
    ensures { result ≡ speed_of subtype direction code }
{
    if (8 <= subtype) | (2 <= direction) | (1024 <= code) {
        return Err(Refusal::Field);
    }
    Ok(speed_at(subtype, direction, code))
}

// The vertical rate of a code of 9 bits with its sign bit.
#[tactic(auto, unfolding(crate::specs::Amounts::rate_at))]
pub(crate) fn rate_at(sign: u8, code: u16) -> Rate
    ensures { result ≡ rate_at sign code }
{
    match code {
        0 => Rate::Unknown,
        511 => Rate::Over,
        _ => Rate::FeetPerMinute(with_sign(sign, 64 * u32::from(code - 1))),
    }
}

// The same of a code and a sign bit within their bits; a wider one is refused.
#[tactic(auto, unfolding(crate::specs::Amounts::rate_of, crate::specs::Amounts::amount))]
pub fn rate_of(sign: u8, code: u16) -> Result<Rate, Refusal>
    ensures { result ≡ rate_of sign code }
{
    if (2 <= sign) | (512 <= code) {
        return Err(Refusal::Field);
    }
    Ok(rate_at(sign, code))
}

// The height difference of a code of 7 bits with its sign bit.
#[tactic(auto, unfolding(crate::specs::Amounts::difference_at))]
pub(crate) fn difference_at(sign: u8, code: u8) -> Difference
    ensures { result ≡ difference_at sign code }
{
    match code {
        0 => Difference::Unknown,
        127 => Difference::Over,
        _ => Difference::Feet(with_sign(sign, 25 * u32::from(code - 1))),
    }
}

// The same of a code and a sign bit within their bits; a wider one is refused.
#[tactic(auto, unfolding(crate::specs::Amounts::difference_of, crate::specs::Amounts::amount))]
pub fn difference_of(sign: u8, code: u8) -> Result<Difference, Refusal>
    ensures { result ≡ difference_of sign code }
{
    if (2 <= sign) | (128 <= code) {
        return Err(Refusal::Field);
    }
    Ok(difference_at(sign, code))
}
