// Whether a place is held at the clock, read off its key and its body: its ranges and its age.
ghost use Rattle.std.specs.Prelude.{◌≡◌, length};
ghost use Rattle.memory.specs.Offsets.{body_size};
ghost use Rattle.memory.specs.Ranges.{in_range, held};

use crate::words::{get4, get8};
use crate::{HEARD, LATITUDE, NORTH};

// Whether the key and every value of the body is in its range.
#[tactic(auto, unfolding(crate::specs::Ranges::in_range))]
fn in_range(key: u32, p: &[u8]) -> bool
    requires { length p.now ≡ body_size }
    ensures { result ≡ in_range key p.now }
{
    keys::is_key(key) & (get4(p, LATITUDE) <= NORTH)
}

// Whether the place is held at the clock: in range, and its track in date.
#[tactic(auto, unfolding(crate::specs::Ranges::held))]
pub fn is_held(clock: u64, key: u32, p: &[u8]) -> bool
    requires { length p.now ≡ body_size }
    ensures { result ≡ held clock key p.now }
{
    in_range(key, p) & track::is_in_date(clock, get8(p, HEARD))
}
