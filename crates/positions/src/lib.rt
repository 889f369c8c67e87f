// Positions: a spot on the earth encoded as two counts, and found again from a pair of messages or from one near a reference.
//
// The definitions speak of whole numbers of either sign. The code holds what can be below zero one whole turn up, in u64:
// a turn is a multiple of every divisor that occurs, so division rounds down and the remainder is right also in the south.
#![tactic(auto)]

ghost use Rattle.std.specs.Prelude.{◌≡◌, ◌&&◌, ◌+◌, ◌-◌, ◌*◌, ◌/◌, ◌%◌, ◌<◌, ◌≤◌, leb, pos};
ghost use Rattle.std.proofs.Math.IntN.{sub_ℕ};
ghost use Rattle.positions.specs.Whole.{modulo};
ghost use Rattle.positions.specs.Zones.{first, zone_count};
ghost use Rattle.positions.specs.Positions.{count_size, own, latitude_zones, longitude_zones, all_round, whole, counts_of, encoded, rounded, rounded_turn, pair_zone, pair_spot, pair_found, fit, paired, near_zone, near_spot, near_found, singly};
ghost use Rattle.positions.specs.Code.{factor, times, IsSize, nearestℕ, edges, Zoned, Polar, Within, Paired};

use counts::{LatitudeCount, LongitudeCount, Zone};
use refusals::Refusal;

// 58 latitudes, at which the number of longitude zones falls: 59 up to the first, 2 up to the last. The unit is 1/1,855,979,520 of 360 degrees: every
// latitude that is compared with them is a whole number of it, and so they may be rounded down. A `static` is read where it lies: a `const` would be
// written to the stack at each search.
static LATITUDES: [u64; 58] = [
    53980500, 76446633, 93759257, 108417017, 121386447, 133162648, 144039410, 154207960, 163801004,
    172915086, 181623041, 189981420, 198035174, 205820740, 213368140, 220702464, 227844941,
    234813719, 241624470, 248290833, 254824773, 261236859, 267536481, 273732034, 279831057,
    285840356, 291766103, 297613912, 303388918, 309095823, 314738954, 320322302, 325849554,
    331324129, 336749197, 342127707, 347462399, 352755820, 358010336, 363228136, 368411237,
    373561481, 378680525, 383769825, 388830609, 393863826, 398870077, 403849496, 408801566,
    413724809, 418616250, 423470442, 428277556, 433019281, 437658849, 442111933, 446132984,
    448528384,
];

// A spot's units in 360 degrees, a zone's counts if they are fine, and the product of the two.
const TURN: u64 = 4294967296;

const SIZE: u64 = 131072;

const FINE: u64 = 562949953421312;

// The poles one turn up, in a spot's units; and four times the north pole one turn up, in counts of 60 zones and of 59.
const SOUTH: u64 = 3221225472;

const NORTH: u64 = 5368709120;

const EVEN_NORTH: u64 = 39321600;

const ODD_NORTH: u64 = 38666240;

// A spot on the earth, in 2^-32 of 360 degrees: latitude from the equator, longitude from 0.
#[derive(Clone, Copy)]
pub struct Spot {
    pub latitude: i32,
    pub longitude: u32,
}

// Of a message: an airborne turn is 360 degrees, a surface turn 90.
#[derive(Clone, Copy)]
pub enum Turn {
    Airborne,
    Surface,
}

// F of a message: 0 is even, 1 is odd.
#[derive(Clone, Copy)]
pub enum Format {
    Even,
    Odd,
}

// How many counts a zone has: 2^17, or 2^12 of a coarse message.
#[derive(Clone, Copy)]
pub enum Size {
    Fine,
    Coarse,
}

// The two counts of one message.
#[derive(Clone, Copy)]
pub struct Counts {
    pub latitude: LatitudeCount,
    pub longitude: LongitudeCount,
}

// The counts of a spot, by the zones at its rounded latitude.
pub fn encode(size: Size, spot: Spot, turn: Turn, format: Format) -> Result<Counts, Refusal>
    ensures { result ≡ encoded (count_size size) spot turn format }
{
    let up = signs::raise(spot.latitude);
    if !pole_to_pole(up) {
        return Err(Refusal::Field);
    }
    Ok(encode_raised(size, up, spot.longitude, turn, format))
}

// The spot of the later of an even and an odd airborne message.
pub fn pair(size: Size, even: Counts, odd: Counts, later: Format) -> Result<Spot, Refusal>
    ensures { result ≡ paired (count_size size) even odd later }
{
    match size {
        Size::Fine => pair_of::<131072>(even, odd, later),
        Size::Coarse => pair_of::<4096>(even, odd, later),
    }
}

// The spot of one message that lies nearest to a reference.
pub fn single(
    size: Size,
    reference: Spot,
    counts: Counts,
    turn: Turn,
    format: Format,
) -> Result<Spot, Refusal>
    ensures { result ≡ singly (count_size size) reference counts turn format }
{
    match size {
        Size::Fine => single_of::<131072>(reference, counts, turn, format),
        Size::Coarse => single_of::<4096>(reference, counts, turn, format),
    }
}

// Here P is how many counts a zone has. Each size has code of its own, so that whoever knows the size pays for no other.
// Counts of 2^12 are tested as such, and read as counts of 2^17.
fn pair_of<const P: u32>(even: Counts, odd: Counts, later: Format) -> Result<Spot, Refusal>
    requires { IsSize P }
    ensures { result ≡ paired P even odd later }
{
    if !(fits::<P>(even) & fits::<P>(odd)) {
        return Err(Refusal::Field);
    }
    pair_fitting(finer::<P>(even), finer::<P>(odd), later)
}

fn single_of<const P: u32>(
    reference: Spot,
    counts: Counts,
    turn: Turn,
    format: Format,
) -> Result<Spot, Refusal>
    requires { IsSize P }
    ensures { result ≡ singly P reference counts turn format }
{
    let up = signs::raise(reference.latitude);
    if !(fits::<P>(counts) & pole_to_pole(up)) {
        return Err(Refusal::Field);
    }
    single_raised(up, reference.longitude, finer::<P>(counts), turn, format)
}

// Whether both counts are below P.
fn fits<const P: u32>(c: Counts) -> bool
    ensures { result ≡ fit P c }
{
    (c.latitude.0 < P) & (c.longitude.0 < P)
}

// Counts of P, as counts of 2^17.
fn finer<const P: u32>(c: Counts) -> Counts
    requires { IsSize P × ((c.latitude.0 < P) × (c.longitude.0 < P)) }
    ensures { (result ≡ times (131072 / P) c) × ((result.latitude.0 < 131072) × (result.longitude.0 < 131072)) }
{
    let k = 131072 / P;
    Counts {
        latitude: LatitudeCount(c.latitude.0 * k),
        longitude: LongitudeCount(c.longitude.0 * k),
    }
}

// Whether a latitude, held one whole turn up, is in range.
pub fn pole_to_pole(up: u64) -> bool
    ensures { result ≡ (leb 3221225472 up && leb up 5368709120) }
{
    (SOUTH <= up) & (up <= NORTH)
}

// .. and back down.
fn lower(up: u64) -> i32
    requires { (3221225472 ≤ up) × (up ≤ 5368709120) }
    ensures { result ≡ sub_ℕ up 4294967296 }
{
    (up as i64 - 4294967296) as i32
}

// a / d to nearest, half up.
fn nearest(a: u64, d: u64) -> u64
    requires { (a < 1152921504606846976) × ((0 < d) × (d < 1152921504606846976)) }
    ensures { result ≡ nearestℕ a d }
{
    (2 * a + d) / (2 * d)
}

// The table: the 58 latitudes of RULES 7.4 in the unit of RULES 7.5, each rounded down.
#[tactic(auto, unfolding(crate::specs::Code::edges, crate::specs::Zones::latitudes))]
fn code_table() -> &'static [u64; 58]
    ensures { result.now ≡ edges }
{
    &LATITUDES
}

// NL of a latitude in the table's unit: 59, less one for each entry below it.
fn zone_count(k: u64) -> u32
    ensures { (result ≡ first 59 edges k 1) × ((0 < result) × (result ≤ 59)) }
{
    match code_table().binary_search(&k) {
        Ok(i) | Err(i) => 59 - i as u32,
    }
}

// The table's units in a count of n zones to 360 degrees: of 14,160 zones a count would be one unit.
fn units_in(n: u32) -> u32
    requires { Zoned n }
    ensures { n * result ≡ 14160 }
{
    match n {
        60 => 236,
        59 => 240,
        240 => 59,
        _ => 60,
    }
}

// NL of a latitude of n zones to 360 degrees, one turn up. Its products are of 32 bits: a small board may have no wider one.
fn zone_count_at(up: u64, n: u64) -> u32
    requires { Zoned n × Polar (n * 131072) up }
    ensures { (result ≡ zone_count (n * 131072) (sub_ℕ up (n * 131072))) × ((0 < result) × (result ≤ 59)) }
{
    let z = n as u32;
    let a = (up as u32).abs_diff(z * SIZE as u32);
    let k = a * units_in(z);
    zone_count(u64::from(k))
}

// Z, the zones of latitude to a turn.
fn latitude_zones(format: Format) -> u64
    ensures { (result ≡ latitude_zones format) × ((59 ≤ result) × (result ≤ 60)) }
{
    match format {
        Format::Even => 60,
        Format::Odd => 59,
    }
}

// n, the zones of longitude to a turn.
fn longitude_zones(format: Format, nl: u32) -> u64
    requires { (0 < nl) × (nl ≤ 59) }
    ensures { (result ≡ longitude_zones format nl) × ((0 < result) × (result ≤ 59)) }
{
    match format {
        Format::Even => nl as u64,
        Format::Odd => if nl == 1 { 1 } else { nl as u64 - 1 },
    }
}

// The zones to 360 degrees.
#[tactic(auto, unfolding(crate::specs::Positions::all_round))]
fn all_round(turn: Turn, zones: u64) -> u64
    requires { (0 < zones) × (zones ≤ 60) }
    ensures { (result ≡ all_round turn zones) × ((zones ≤ result) × (result ≤ 240)) }
{
    match turn {
        Turn::Airborne => zones,
        Turn::Surface => 4 * zones,
    }
}

// The exact latitude of n zones, one turn up, in 2^-32 of 360 degrees.
fn latitude_out(up: u64, n: u64) -> i32
    requires { ((0 < n) × (n ≤ 240)) × Polar (n * 131072) up }
    ensures { result ≡ rounded (n * 131072) (sub_ℕ up (n * 131072)) }
{
    lower(nearest(up * TURN, n * SIZE))
}

// The longitude of a zone of n and a count: short of a turn by more than half a unit, so that rounded it has 32 bits.
fn longitude_out(zone: Zone, count: LongitudeCount, n: u64) -> u32
    requires { (zone.0 < n) × ((count.0 < 131072) × (n ≤ 240)) }
    ensures { result ≡ rounded_turn (n * 131072) (zone.0 * 131072 + count.0) }
{
    let v = (zone.0 as u64) * SIZE + (count.0 as u64);
    nearest(v * TURN, n * SIZE) as u32
}

// A count of the size, in counts of 2^17.
fn factor_of(size: Size) -> u64
    ensures { (result ≡ factor size) × (result ≤ 32) }
{
    match size {
        Size::Fine => 1,
        Size::Coarse => 32,
    }
}

// A quarter of a zone's counts: a pole is a whole number of them.
fn quarter_of(size: Size) -> u64
    ensures { (4 * result ≡ count_size size) × ((0 < result) × (result ≤ 32768)) }
{
    match size {
        Size::Fine => 32768,
        Size::Coarse => 1024,
    }
}

// A latitude one turn up, encoded by n zones of 4 q counts: the whole number before the modulo, one turn up.
fn latitude_whole(up: u64, n: u64, q: u64) -> u64
    requires { ((0 < n) × (n ≤ 240)) × (((0 < q) × (q ≤ 32768)) × ((3221225472 ≤ up) × (up ≤ 5368709120))) }
    ensures { (whole (4 * q) n (sub_ℕ up 4294967296) ≡ sub_ℕ result (n * (4 * q))) × (Polar (n * (4 * q)) result × (result ≤ 39321600)) }
{
    nearest(up * (n * (4 * q)), TURN)
}

// A longitude likewise; it is never below zero.
fn longitude_whole(longitude: u32, n: u64, q: u64) -> u64
    requires { ((0 < n) × (n ≤ 240)) × ((0 < q) × (q ≤ 32768)) }
    ensures { whole (4 * q) n (pos longitude) ≡ pos result }
{
    nearest((longitude as u64) * (n * (4 * q)), TURN)
}

// The count of such a whole number, modulo the size: by a number that is known, so that nothing is divided.
fn count_of(size: Size, whole: u64) -> u32
    ensures { result ≡ whole % count_size size }
{
    match size {
        Size::Fine => (whole % SIZE) as u32,
        Size::Coarse => (whole % 4096) as u32,
    }
}

// The counts of a spot whose latitude is one turn up and in range. NL is asked of its rounded latitude in counts of 2^17.
fn encode_raised(size: Size, up: u64, longitude: u32, turn: Turn, format: Format) -> Counts
    requires { (3221225472 ≤ up) × (up ≤ 5368709120) }
    ensures { result ≡ counts_of (count_size size) (record { latitude = sub_ℕ up 4294967296; longitude = longitude }) turn format }
{
    let q = quarter_of(size);
    let k = factor_of(size);
    let z = all_round(turn, latitude_zones(format));
    let y = latitude_whole(up, z, q);
    let n = all_round(turn, longitude_zones(format, zone_count_at(y * k, z)));
    let x = longitude_whole(longitude, n, q);
    Counts {
        latitude: LatitudeCount(count_of(size, y)),
        longitude: LongitudeCount(count_of(size, x)),
    }
}

// The zone of a pair by its numerator, modulo z.
fn zone_by(x: u64, z: u64) -> Zone
    requires { (x < 1073741824) × ((0 < z) × (z ≤ 60)) }
    ensures { (result.0 ≡ nearestℕ x 131072 % z) × (result.0 < z) }
{
    Zone((nearest(x, SIZE) % z) as u32)
}

// j modulo z. The numerator is 60 z zones up, which z does not see, so that it is never below zero.
fn pair_latitude_zone(z: u64, even: LatitudeCount, odd: LatitudeCount) -> Zone
    requires { ((0 < z) × (z ≤ 60)) × ((even.0 < 131072) × (odd.0 < 131072)) }
    ensures { (result.0 ≡ modulo (pair_zone 131072 60 even.0 odd.0) z) × (result.0 < z) }
{
    let x = (even.0 as u64) * 59 + 60 * z * SIZE - (odd.0 as u64) * 60;
    zone_by(x, z)
}

// m modulo n, with the numerator NL n zones up: m may be -NL.
fn pair_longitude_zone(nl: u32, n: u64, even: LongitudeCount, odd: LongitudeCount) -> Zone
    requires { ((0 < nl) × (nl ≤ 59)) × (((0 < n) × (n ≤ 59)) × ((even.0 < 131072) × (odd.0 < 131072))) }
    ensures { (result.0 ≡ modulo (pair_zone 131072 nl even.0 odd.0) n) × (result.0 < n) }
{
    let m = nl as u64;
    let x = (even.0 as u64) * (m - 1) + m * n * SIZE - (odd.0 as u64) * m;
    zone_by(x, n)
}

// The exact latitude of a zone of z and a count, less 360 from 270 up; and that one turn up.
fn latitude_in(z: u64, zone: Zone, count: LatitudeCount) -> u64
    requires { (zone.0 < z) × ((count.0 < 131072) × (z ≤ 60)) }
    ensures { Within (z * 131072) (zone.0 * 131072 + count.0) result }
{
    let m = z * SIZE;
    let v = (zone.0 as u64) * SIZE + (count.0 as u64);
    if 3 * m <= 4 * v { v } else { v + m }
}

// Of what the two messages of a pair have, what the one of a format has.
fn own<T: Copy>(format: Format, even: T, odd: T) -> T
    ensures { result ≡ own format even odd }
{
    match format {
        Format::Even => even,
        Format::Odd => odd,
    }
}

// The exact latitude of the message of a format, of a pair, one turn up.
fn pair_latitude(format: Format, even: LatitudeCount, odd: LatitudeCount) -> u64
    requires { (even.0 < 131072) × (odd.0 < 131072) }
    ensures { Paired format even.0 odd.0 result }
{
    let z = latitude_zones(format);
    let zone = pair_latitude_zone(z, even, odd);
    latitude_in(z, zone, own(format, even, odd))
}

// The spot of the message of a format, of a pair: its latitude, one turn up, is found already.
fn pair_spot(format: Format, up: u64, nl: u32, even: LongitudeCount, odd: LongitudeCount) -> Spot
    requires polar { Polar (latitude_zones format * 131072) up }
    requires nl_nonzero { ((0 < nl) × (nl ≤ 59)) × ((even.0 < 131072) × (odd.0 < 131072)) }
    ensures { result ≡ pair_spot 131072 format (sub_ℕ up (latitude_zones format * 131072)) nl even.0 odd.0 }
{
    let latitude = latitude_out(up, latitude_zones(format));
    let n = longitude_zones(format, nl);
    let zone = pair_longitude_zone(nl, n, even, odd);
    let longitude = longitude_out(zone, own(format, even, odd), n);
    Spot {
        latitude,
        longitude,
    }
}

// What counts in range give; 9 is tested before NL is asked, so NL is only asked of a latitude.
fn pair_fitting(even: Counts, odd: Counts, later: Format) -> Result<Spot, Refusal>
    requires latitude_bound { (even.latitude.0 < 131072) × (even.longitude.0 < 131072) }
    requires latitude_bound_2 { (odd.latitude.0 < 131072) × (odd.longitude.0 < 131072) }
    ensures { result ≡ pair_found 131072 even odd later }
{
    let a = even.latitude;
    let b = odd.latitude;
    let r = pair_latitude(Format::Even, a, b);
    let s = pair_latitude(Format::Odd, a, b);
    if (EVEN_NORTH < 4 * r) | (ODD_NORTH < 4 * s) {
        return Err(Refusal::Latitude);
    }
    let nl = zone_count_at(r, 60);
    if nl != zone_count_at(s, 59) {
        return Err(Refusal::Zones);
    }
    let x = even.longitude;
    let y = odd.longitude;
    match later {
        Format::Even => Ok(pair_spot(Format::Even, r, nl, x, y)),
        Format::Odd => Ok(pair_spot(Format::Odd, s, nl, x, y)),
    }
}

// The zone of n in which a latitude count lies nearest to a reference; both one turn up.
fn near_latitude_zone(up: u64, n: u64, count: LatitudeCount) -> Zone
    requires { ((59 ≤ n) × (n ≤ 240)) × (((3221225472 ≤ up) × (up ≤ 5368709120)) × (count.0 < 131072)) }
    ensures { (near_zone 131072 n (sub_ℕ up 4294967296) count.0 ≡ sub_ℕ result.0 n) × (result.0 ≤ 400) }
{
    let x = up * (n * SIZE) - (count.0 as u64) * TURN;
    Zone(nearest(x, FINE) as u32)
}

// The same for a longitude count, modulo n.
fn near_longitude_zone(longitude: u32, n: u64, count: LongitudeCount) -> Zone
    requires { ((0 < n) × (n ≤ 240)) × (count.0 < 131072) }
    ensures { (result.0 ≡ modulo (near_zone 131072 n (pos longitude) count.0) n) × (result.0 < n) }
{
    let x = (longitude as u64) * (n * SIZE) + n * FINE - (count.0 as u64) * TURN;
    Zone(folded(nearest(x, FINE), n) as u32)
}

// a modulo n, of less than 3 n. A division of numbers so small would be a call of one more function on processors that cannot divide.
fn folded(a: u64, n: u64) -> u64
    requires { (n ≤ 240) × (a < 3 * n) }
    ensures { result ≡ a % n }
{
    if a < n {
        a
    } else if a < 2 * n {
        a - n
    } else {
        a - 2 * n
    }
}

// The spot with a latitude of z zones, one turn up, and the longitude of n zones nearest to a reference.
fn near_spot(up: u64, z: u64, n: u64, longitude: u32, count: LongitudeCount) -> Spot
    requires z_nonzero { ((0 < z) × (z ≤ 240)) × Polar (z * 131072) up }
    requires n_nonzero { ((0 < n) × (n ≤ 240)) × (count.0 < 131072) }
    ensures { result ≡ near_spot 131072 z (sub_ℕ up (z * 131072)) n longitude count.0 }
{
    let latitude = latitude_out(up, z);
    let near = longitude_out(near_longitude_zone(longitude, n, count), count, n);
    Spot {
        latitude,
        longitude: near,
    }
}

// What counts in range give near a reference whose latitude is one turn up and in range.
fn single_raised(
    up: u64,
    longitude: u32,
    counts: Counts,
    turn: Turn,
    format: Format,
) -> Result<Spot, Refusal>
    requires le_up { (3221225472 ≤ up) × (up ≤ 5368709120) }
    requires latitude_bound { (counts.latitude.0 < 131072) × (counts.longitude.0 < 131072) }
    ensures { result ≡ near_found 131072 (all_round turn (latitude_zones format)) (record { latitude = sub_ℕ up 4294967296; longitude = longitude }) counts turn format }
{
    let z = all_round(turn, latitude_zones(format));
    let m = z * SIZE;
    let a = counts.latitude;
    let zone = near_latitude_zone(up, z, a);
    let y = (zone.0 as u64) * SIZE + (a.0 as u64);
    if (4 * y < 3 * m) | (5 * m < 4 * y) {
        return Err(Refusal::Latitude);
    }
    let n = all_round(turn, longitude_zones(format, zone_count_at(y, z)));
    Ok(near_spot(y, z, n, longitude, counts.longitude))
}
