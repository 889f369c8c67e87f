// The altitude that 12 bits say, with its step: pressure altitude, or GNSS height.
ghost use Rattle.std.specs.Prelude.{◌≡◌, ◌<◌, ◌≤◌, ◌+◌, ◌*◌};
ghost use Rattle.readings.specs.Altitude.{gray_step, straight, six_less, altitude_at, altitude_of};
ghost use Rattle.readings.specs.Code.{by_hundreds};
ghost use Rattle.readings.specs.Altitude.{five_hundreds, hundreds as Altitude·hundreds};

use crate::signed::less;
use refusals::Refusal;

// How coarse it is, its step says: 25 or 100 feet.
#[derive(Clone, Copy)]
pub struct Altitude {
    pub feet: i32,
    pub step: u8,
}

// One bit more of a Gray code.
#[tactic(auto, unfolding(crate::specs::Altitude::gray_step))]
fn gray(n: u32, g: u32) -> u32
    requires { (n < 128) × (g < 2) }
    ensures { (result ≡ gray_step n g) × (result < n * 2 + 2) }
{
    n * 2 + (n % 2 + g) % 2
}

#[tactic(auto, unfolding(crate::specs::Altitude::five_hundreds))]
fn five_hundreds(c: u32) -> u32
    ensures { (result ≡ five_hundreds c) × (result < 256) }
{
    let n = gray(0, c / 4 % 2);
    let n = gray(n, c / 1 % 2);
    let n = gray(n, c / 1024 % 2);
    let n = gray(n, c / 256 % 2);
    let n = gray(n, c / 64 % 2);
    let n = gray(n, c / 32 % 2);
    let n = gray(n, c / 8 % 2);
    gray(n, c / 2 % 2)
}

#[tactic(auto, unfolding(crate::specs::Altitude::hundreds))]
fn hundreds(c: u32) -> u32
    ensures { (result ≡ Altitude·hundreds c) × (result < 8) }
{
    let n = gray(0, c / 2048 % 2);
    let n = gray(n, c / 512 % 2);
    gray(n, c / 128 % 2)
}

#[tactic(auto, unfolding(crate::specs::Altitude::straight))]
fn straightened(h: u32) -> u32
    requires { h < 8 }
    ensures { (result ≡ straight h) × (result ≤ 6) }
{
    if h == 7 { 5 } else { h }
}

#[tactic(auto, unfolding(crate::specs::Altitude::six_less))]
fn turned(f: u32, h: u32) -> u32
    requires { h < 8 }
    ensures { (result ≡ six_less f (straight h)) × (result < 8) }
{
    let k = straightened(h);
    if f % 2 == 1 { 6 - k } else { k }
}

#[tactic(auto, unfolding(crate::specs::Code::by_hundreds))]
fn by_hundreds(f: u32, h: u32) -> Option<Altitude>
    requires { (f < 256) × (h < 8) }
    ensures { result ≡ by_hundreds f h }
{
    if matches!(h, 0 | 5 | 6) {
        return None;
    }
    let n = 500 * f + 100 * turned(f, h);
    Some(Altitude {
        feet: less(n, 1300),
        step: 100,
    })
}

// The altitude of a code of 12 bits, if it is known.
#[tactic(auto, unfolding(crate::specs::Altitude::altitude_at, crate::specs::Code::by_hundreds))]
pub(crate) fn altitude_at(code: u16) -> Option<Altitude>
    ensures { result ≡ altitude_at code }
{
    let c = u32::from(code);
    if c == 0 {
        return None;
    }
    if c / 16 % 2 == 1 {
        return Some(Altitude {
            feet: less(25 * (c / 32 % 128 * 16 + c / 1 % 16), 1000),
            step: 25,
        });
    }
    by_hundreds(five_hundreds(c), hundreds(c))
}

// The same; a code wider than its bits is refused.
#[tactic(auto, unfolding(crate::specs::Altitude::altitude_of))]
pub fn altitude_of(code: u16) -> Result<Option<Altitude>, Refusal>
    ensures { result ≡ altitude_of code }
{
    if 4096 <= code {
        return Err(Refusal::Field);
    }
    Ok(altitude_at(code))
}
