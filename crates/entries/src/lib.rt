// The entries of a row: numbers in arrays that another language lends (`arrays`), and a reading as two of them: what it is (0 unknown, 1 known, 2 over, 3 reserved, 4 stopped, 5 refused), and its value.
#![tactic(auto)]

mod arrays;

ghost use Rattle.std.specs.Prelude.{◌≡◌};
ghost use Rattle.entries.specs.Means.{reading, altitude_reading, step_reading, speed_reading, rate_reading, difference_reading, heading_reading, movement_reading, coarse_speed_reading, set_reading, text_reading, version_reading, supplement_reading};
ghost use Rattle.entries.specs.Means.{bit as bit_of};

pub use arrays::{entry, fill, fill_bytes, give, twos_of};
use characters::CategorySet;
use readings::{Altitude, CoarseSpeed, Difference, Movement, Rate, Speed};
use refusals::Refusal;

#[derive(Clone, Copy)]
pub struct Reading {
    pub what: u64,
    pub value: u64,
}

fn known(value: u64) -> Reading
    ensures { result ≡ reading 1 value }
{
    Reading { what: 1, value }
}

// A reading that has no number.
pub fn only(what: u64) -> Reading
    ensures { result ≡ reading what 0 }
{
    Reading { what, value: 0 }
}

// From a value up.
fn and_up(value: u64) -> Reading
    ensures { result ≡ reading 2 value }
{
    Reading { what: 2, value }
}

pub fn bit(b: bool) -> u64
    ensures { result ≡ bit_of b }
{
    u64::from(b)
}

pub fn altitude_reading(a: Result<Option<Altitude>, Refusal>) -> Reading
    ensures { result ≡ altitude_reading a }
{
    match a {
        Ok(Some(a)) => known(twos_of(a.feet)),
        Ok(None) => only(0),
        Err(_) => only(5),
    }
}

// How coarse an altitude is.
pub fn step_reading(a: Result<Option<Altitude>, Refusal>) -> Reading
    ensures { result ≡ step_reading a }
{
    match a {
        Ok(Some(a)) => known(u64::from(a.step)),
        Ok(None) => only(0),
        Err(_) => only(5),
    }
}

pub fn speed_reading(a: Result<Speed, Refusal>) -> Reading
    ensures { result ≡ speed_reading a }
{
    match a {
        Ok(Speed::Unknown) => only(0),
        Ok(Speed::Knots(z)) => known(twos_of(z)),
        Ok(Speed::Over) => only(2),
        Err(_) => only(5),
    }
}

pub fn rate_reading(a: Result<Rate, Refusal>) -> Reading
    ensures { result ≡ rate_reading a }
{
    match a {
        Ok(Rate::Unknown) => only(0),
        Ok(Rate::FeetPerMinute(z)) => known(twos_of(z)),
        Ok(Rate::Over) => only(2),
        Err(_) => only(5),
    }
}

pub fn difference_reading(a: Result<Difference, Refusal>) -> Reading
    ensures { result ≡ difference_reading a }
{
    match a {
        Ok(Difference::Unknown) => only(0),
        Ok(Difference::Feet(z)) => known(twos_of(z)),
        Ok(Difference::Over) => only(2),
        Err(_) => only(5),
    }
}

pub fn heading_reading(a: Result<u32, Refusal>) -> Reading
    ensures { result ≡ heading_reading a }
{
    match a {
        Ok(n) => known(u64::from(n)),
        Err(_) => only(5),
    }
}

pub fn movement_reading(a: Result<Movement, Refusal>) -> Reading
    ensures { result ≡ movement_reading a }
{
    match a {
        Ok(Movement::Unknown) => only(0),
        Ok(Movement::Stopped) => only(4),
        Ok(Movement::LowerEdge(n)) => known(u64::from(n)),
        Ok(Movement::AndUp(n)) => and_up(u64::from(n)),
        Ok(Movement::Reserved) => only(3),
        Err(_) => only(5),
    }
}

pub fn coarse_speed_reading(a: Result<CoarseSpeed, Refusal>) -> Reading
    ensures { result ≡ coarse_speed_reading a }
{
    match a {
        Ok(CoarseSpeed::Unknown) => only(0),
        Ok(CoarseSpeed::LowerEdge(n)) => known(u64::from(n)),
        Ok(CoarseSpeed::AndUp(n)) => and_up(u64::from(n)),
        Err(_) => only(5),
    }
}

pub fn set_reading(a: Result<Option<CategorySet>, Refusal>) -> Reading
    ensures { result ≡ set_reading a }
{
    match a {
        Ok(Some(CategorySet::A)) => known(65),
        Ok(Some(CategorySet::B)) => known(66),
        Ok(Some(CategorySet::C)) => known(67),
        Ok(Some(CategorySet::D)) => known(68),
        Ok(None) => only(0),
        Err(_) => only(5),
    }
}

pub fn text_reading(a: Result<u64, Refusal>) -> Reading
    ensures { result ≡ text_reading a }
{
    match a {
        Ok(n) => known(n),
        Err(_) => only(5),
    }
}

// Of a version that is reserved there is none.
pub fn version_reading(a: Option<u8>) -> Reading
    ensures { result ≡ version_reading a }
{
    match a {
        Some(n) => known(u64::from(n)),
        None => only(3),
    }
}

pub fn supplement_reading(a: Option<u8>) -> Reading
    ensures { result ≡ supplement_reading a }
{
    match a {
        Some(n) => known(u64::from(n)),
        None => only(0),
    }
}
