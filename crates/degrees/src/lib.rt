// Places in degrees, as doubles, and back. Nothing is rounded: n units of 2^-32 of a turn are n * 360 / 2^32 degrees, and for every n of 32 bits that
// is a double.
#![tactic(auto)]

ghost use Rattle.std.specs.Prelude.{◌≡◌, ◌<◌, negsuc};
ghost use Rattle.degrees.specs.Value.{degrees_of};
ghost use Rattle.degrees.specs.Ways.{in_degrees, from_degrees};
ghost use Rattle.degrees.specs.Code.{Counted, Guessed, WholeIs};

use positions::Spot;
use refusals::Refusal;

// A place in degrees: latitude from the equator, longitude from -180 up to below 180.
#[derive(Clone, Copy)]
pub struct Degrees {
    pub latitude: f64,
    pub longitude: f64,
}

// A place in degrees, exactly.
pub fn to_degrees(spot: Spot) -> Result<Degrees, Refusal>
    ensures { result ≡ in_degrees spot }
{
    if !positions::pole_to_pole(signs::raise(spot.latitude)) {
        return Err(Refusal::Field);
    }
    let latitude = figure(spot.latitude);
    let longitude = figure(spot.longitude.cast_signed());
    Ok(Degrees {
        latitude,
        longitude,
    })
}

// The place that two doubles exactly are.
pub fn from_degrees(d: Degrees) -> Result<Spot, Refusal>
    ensures { result ≡ from_degrees d }
{
    let latitude = units_of(d.latitude).ok_or(Refusal::Degrees)?;
    if !positions::pole_to_pole(signs::raise(latitude)) {
        return Err(Refusal::Degrees);
    }
    let n = units_of(d.longitude).ok_or(Refusal::Degrees)?;
    let longitude = n.cast_unsigned();
    Ok(Spot {
        latitude,
        longitude,
    })
}

// n units in degrees. It serves both figures: a number of 32 bits is just in -2^31 up to 2^31 - 1.
fn figure(n: i32) -> f64
    ensures { result ≡ degrees_of n }
{
    (n as f64) * 360.0 / 4294967296.0
}

// -1 - k
fn minus(k: u32) -> i32
    requires { k < 2147483648 }
    ensures { result ≡ negsuc k }
{
    -1 - (k as i32)
}

// Of a double that is the whole number 360 k: k.
fn count(y: f64) -> u64
    ensures { Counted y result }
{
    if y > -1.0 {
        if y < 18446744073709551616.0 {
            return std::num::truncating_f64_to_u64(y) / 360;
        }
    }
    0
}

// Of a double that is a figure: of which number.
fn guess(x: f64) -> i32
    ensures { Guessed x result }
{
    let y = x * 4294967296.0;
    if y < 0.0 {
        let k = count(-y);
        if k == 0 {
            return 0;
        }
        if k <= 2147483648 {
            return minus((k - 1) as u32);
        }
        return 0;
    }
    let k = count(y);
    if k < 2147483648 {
        return k as i32;
    }
    0
}

// Guesses, goes forth again and compares the patterns: so no other double is taken, and negative zero is none.
fn units_of(x: f64) -> Option<i32>
    ensures { WholeIs x result }
{
    if x.is_nan() {
        return None;
    }
    let n = guess(x);
    let y = figure(n);
    let given = f64::to_bits(x);
    let due = f64::to_bits(y);
    if given == due { Some(n) } else { None }
}
