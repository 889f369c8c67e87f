// Positions: encoded, paired, or read singly.
ghost use Rattle.std.specs.Prelude.{◌≡◌};
ghost use Rattle.entries.specs.Sent.{sent, given, into};
ghost use Rattle.addercoil.specs.Spots.{turn_of, format_of, as_counts, counts_said, spot_values, spot_said, encode_said, pair_said, single_said};

use counts::{LatitudeCount, LongitudeCount};
use entries::give;
use positions::{Counts, Format, Size, Spot, Turn};
use refusals::Refusal;

fn turn_of(surface: u32) -> Turn
    ensures { result ≡ turn_of surface }
{
    if surface == 0 {
        Turn::Airborne
    } else {
        Turn::Surface
    }
}

fn format_of(odd: u32) -> Format
    ensures { result ≡ format_of odd }
{
    if odd == 0 { Format::Even } else { Format::Odd }
}

fn give_counts(out: &mut [u64], answer: Result<Counts, Refusal>) -> u32
    ensures { sent result out.new ≡ given out.old (counts_said answer) }
{
    match answer {
        Ok(c) => give(out, &[c.latitude.0 as u64, c.longitude.0 as u64]),
        Err(r) => refusals::number(r),
    }
}

fn give_at(out: &mut [u64], spot: Spot) -> u32
    ensures { sent result out.new ≡ given out.old (spot_values spot) }
{
    let latitude = entries::twos_of(spot.latitude);
    let longitude = spot.longitude as u64;
    give(out, &[latitude, longitude])
}

pub(crate) fn give_spot(out: &mut [u64], answer: Result<Spot, Refusal>) -> u32
    ensures { sent result out.new ≡ given out.old (spot_said answer) }
{
    match answer {
        Ok(spot) => give_at(out, spot),
        Err(r) => refusals::number(r),
    }
}

fn give_encoded(
    out: &mut [u64],
    size: Size,
    latitude: i32,
    longitude: u32,
    surface: u32,
    odd: u32,
) -> u32
    ensures { sent result out.new ≡ given out.old (encode_said size latitude longitude surface odd) }
{
    if (1 < surface) | (1 < odd) {
        return 8;
    }
    let spot = Spot {
        latitude,
        longitude,
    };
    let answer = positions::encode(size, spot, turn_of(surface), format_of(odd));
    give_counts(out, answer)
}

fn give_pair(out: &mut [u64], size: Size, even: Counts, odd: Counts, later_odd: u32) -> u32
    ensures { sent result out.new ≡ given out.old (pair_said size even odd later_odd) }
{
    if 1 < later_odd {
        return 8;
    }
    give_spot(out, positions::pair(size, even, odd, format_of(later_odd)))
}

fn give_single(
    out: &mut [u64],
    size: Size,
    latitude: i32,
    longitude: u32,
    counts: Counts,
    surface: u32,
    odd: u32,
) -> u32
    ensures { sent result out.new ≡ given out.old (single_said size latitude longitude counts surface odd) }
{
    if (1 < surface) | (1 < odd) {
        return 8;
    }
    let reference = Spot {
        latitude,
        longitude,
    };
    let answer = positions::single(size, reference, counts, turn_of(surface), format_of(odd));
    give_spot(out, answer)
}

fn counts_of(latitude: u32, longitude: u32) -> Counts
    ensures { result ≡ as_counts latitude longitude }
{
    Counts {
        latitude: LatitudeCount(latitude),
        longitude: LongitudeCount(longitude),
    }
}

// The two counts of a spot, into 2 entries. Or 1, then 8.
pub fn addercoil_encode_position(
    latitude: i32,
    longitude: u32,
    surface: u32,
    odd: u32,
    out: &mut [u64],
) -> u32
    ensures { sent result out.new ≡ into 2 out.old (encode_said Size.Fine latitude longitude surface odd) }
{
    if out.len() != 2 {
        return 1;
    }
    give_encoded(out, Size::Fine, latitude, longitude, surface, odd)
}

// Those of a coarse message, which is airborne. Or 1, then 8.
pub fn addercoil_encode_position_coarse(
    latitude: i32,
    longitude: u32,
    odd: u32,
    out: &mut [u64],
) -> u32
    ensures { sent result out.new ≡ into 2 out.old (encode_said Size.Coarse latitude longitude 0 odd) }
{
    if out.len() != 2 {
        return 1;
    }
    give_encoded(out, Size::Coarse, latitude, longitude, 0, odd)
}

// The spot of the later of two airborne messages, into 2 entries. Or 1, then 8, 9, 10.
pub fn addercoil_pair(
    even_latitude: u32,
    even_longitude: u32,
    odd_latitude: u32,
    odd_longitude: u32,
    later_odd: u32,
    out: &mut [u64],
) -> u32
    ensures { sent result out.new ≡ into 2 out.old (pair_said Size.Fine (as_counts even_latitude even_longitude) (as_counts odd_latitude odd_longitude) later_odd) }
{
    if out.len() != 2 {
        return 1;
    }
    let even = counts_of(even_latitude, even_longitude);
    let odd = counts_of(odd_latitude, odd_longitude);
    give_pair(out, Size::Fine, even, odd, later_odd)
}

// That of two coarse messages. Or 1, then 8, 9, 10.
pub fn addercoil_pair_coarse(
    even_latitude: u32,
    even_longitude: u32,
    odd_latitude: u32,
    odd_longitude: u32,
    later_odd: u32,
    out: &mut [u64],
) -> u32
    ensures { sent result out.new ≡ into 2 out.old (pair_said Size.Coarse (as_counts even_latitude even_longitude) (as_counts odd_latitude odd_longitude) later_odd) }
{
    if out.len() != 2 {
        return 1;
    }
    let even = counts_of(even_latitude, even_longitude);
    let odd = counts_of(odd_latitude, odd_longitude);
    give_pair(out, Size::Coarse, even, odd, later_odd)
}

// The spot of one message near a reference, into 2 entries. Or 1, then 8, 9.
pub fn addercoil_single(
    latitude: i32,
    longitude: u32,
    count_latitude: u32,
    count_longitude: u32,
    surface: u32,
    odd: u32,
    out: &mut [u64],
) -> u32
    ensures { sent result out.new ≡ into 2 out.old (single_said Size.Fine latitude longitude (as_counts count_latitude count_longitude) surface odd) }
{
    if out.len() != 2 {
        return 1;
    }
    let counts = counts_of(count_latitude, count_longitude);
    give_single(out, Size::Fine, latitude, longitude, counts, surface, odd)
}

// That of a coarse message, which is airborne. Or 1, then 8, 9.
pub fn addercoil_single_coarse(
    latitude: i32,
    longitude: u32,
    count_latitude: u32,
    count_longitude: u32,
    odd: u32,
    out: &mut [u64],
) -> u32
    ensures { sent result out.new ≡ into 2 out.old (single_said Size.Coarse latitude longitude (as_counts count_latitude count_longitude) 0 odd) }
{
    if out.len() != 2 {
        return 1;
    }
    let counts = counts_of(count_latitude, count_longitude);
    give_single(out, Size::Coarse, latitude, longitude, counts, 0, odd)
}
