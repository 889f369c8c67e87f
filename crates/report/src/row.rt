// What a line of the listing says of a track.
ghost use Rattle.std.specs.Prelude.{◌≡◌};
ghost use Rattle.report.specs.Listing.{latitude_in, longitude_in, row_from, row_of};
ghost use Rattle.report.specs.Listing.{feet as feet_of, step_in};

use readings::Altitude;
use refusals::Refusal;
use text::Row;
use track::Track;
use whereabouts::Position;

#[tactic(auto, unfolding(crate::specs::Listing::latitude_in))]
fn latitude_in(p: Position) -> Option<i64>
    ensures { result ≡ latitude_in p }
{
    if p.known {
        Some(i64::from(p.spot.latitude))
    } else {
        None
    }
}

#[tactic(auto, unfolding(crate::specs::Listing::longitude_in))]
fn longitude_in(p: Position) -> Option<i64>
    ensures { result ≡ longitude_in p }
{
    if p.known {
        Some(i64::from(p.spot.longitude))
    } else {
        None
    }
}

#[tactic(auto, unfolding(crate::specs::Listing::feet))]
fn feet(a: Result<Option<Altitude>, Refusal>) -> Option<i64>
    ensures { result ≡ feet_of a }
{
    match a {
        Ok(Some(a)) => Some(i64::from(a.feet)),
        Ok(None) | Err(_) => None,
    }
}

#[tactic(auto, unfolding(crate::specs::Listing::step_in))]
fn step_in(a: Result<Option<Altitude>, Refusal>) -> Option<i64>
    ensures { result ≡ step_in a }
{
    match a {
        Ok(Some(a)) => Some(i64::from(a.step)),
        Ok(None) | Err(_) => None,
    }
}

// The row of a key, from what it says of a track: when it was last heard, its position and the code of its pressure altitude.
pub fn row_from(key: u32, heard: u64, p: Position, pressure: u16) -> Row
    ensures { result ≡ row_from key heard p pressure }
{
    let altitude = readings::altitude_of(pressure);
    Row {
        key,
        heard,
        latitude: latitude_in(p),
        longitude: longitude_in(p),
        altitude: feet(altitude),
        step: step_in(altitude),
    }
}

#[tactic(auto, unfolding(crate::specs::Listing::row_of))]
pub(crate) fn row_of(key: u32, t: Track) -> Row
    ensures { result ≡ row_of key t }
{
    let g = t.groups;
    row_from(key, t.heard, t.position, g.pressure)
}
