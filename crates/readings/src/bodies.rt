// What a message's body means, layout by layout: its readings by name, or one refusal for the whole of it.
ghost use Rattle.std.specs.Prelude.{◌≡◌, Bool};
ghost use Rattle.layouts.specs.Bodies.{taken_as};
ghost use Rattle.readings.specs.Bodies.{height_difference, readings_of, readings_in};

use crate::altitude::{Altitude, altitude_at};
use crate::amounts::{Difference, Rate, Speed, difference_at, rate_at, speed_at};
use crate::coarse::{CoarseSpeed, coarse_speed_at};
use crate::headings::turn_of;
use crate::movement::{Movement, movement_at};
use crate::status::{supplement_a_of, supplement_c_of, version_of};
use characters::{CategorySet, set_at, text_at};
use layouts::{Air, Airborne, Body, Coarse, Ground, Identification, Layout, Status, Surface};
use refusals::Refusal;

#[derive(Clone, Copy)]
pub struct IdentificationReadings {
    pub set: Option<CategorySet>,
    pub text: u64,
}

#[derive(Clone, Copy)]
pub struct SurfaceReadings {
    pub movement: Movement,
    pub heading: u32,
}

#[derive(Clone, Copy)]
pub struct AirborneReadings {
    pub altitude: Option<Altitude>,
    // GNSS height, else pressure altitude
    pub gnss: bool,
}

#[derive(Clone, Copy)]
pub struct GroundReadings {
    pub east: Speed,
    pub north: Speed,
    pub rate: Rate,
    pub difference: Difference,
}

#[derive(Clone, Copy)]
pub struct AirReadings {
    pub heading: u32,
    pub airspeed: Speed,
    pub rate: Rate,
    pub difference: Difference,
}

#[derive(Clone, Copy)]
pub struct StatusReadings {
    // None where it is reserved
    pub version: Option<u8>,
    pub supplementa: Option<u8>,
    pub supplementc: Option<u8>,
}

#[derive(Clone, Copy)]
pub struct CoarseReadings {
    pub altitude: Option<Altitude>,
    pub angle: u32,
    pub speed: CoarseSpeed,
}

#[derive(Clone, Copy)]
pub enum Readings {
    Identification(IdentificationReadings),
    Surface(SurfaceReadings),
    Airborne(AirborneReadings),
    // velocity over ground
    Ground(GroundReadings),
    // velocity through air
    Air(AirReadings),
    // operational status
    Status(StatusReadings),
    // of a coarse message
    Coarse(CoarseReadings),
}

// The category set, by TYPE, and the eight characters.
#[tactic(auto, unfolding(crate::specs::Bodies::readings_of))]
fn identification_readings(b: Identification) -> Result<Readings, Refusal>
    ensures { (traffic : Bool) → result ≡ readings_of (Body.Identification b) traffic }
{
    if !layouts::identification_fits(b) {
        return Err(Refusal::Field);
    }
    Ok(Readings::Identification(IdentificationReadings {
        set: set_at(b.typecode),
        text: text_at(b.characters),
    }))
}

// The movement, and the heading whatever its status bit says.
#[tactic(auto, unfolding(crate::specs::Bodies::readings_of))]
fn surface_readings(b: Surface) -> Result<Readings, Refusal>
    ensures { (traffic : Bool) → result ≡ readings_of (Body.Surface b) traffic }
{
    if !layouts::surface_fits(b) {
        return Err(Refusal::Field);
    }
    Ok(Readings::Surface(SurfaceReadings {
        movement: movement_at(b.movement),
        heading: turn_of(7, u32::from(b.heading)),
    }))
}

// The altitude, and which of the two it is.
#[tactic(auto, unfolding(crate::specs::Bodies::readings_of))]
fn airborne_readings(b: Airborne) -> Result<Readings, Refusal>
    ensures { (traffic : Bool) → result ≡ readings_of (Body.Airborne b) traffic }
{
    if !layouts::airborne_fits(b) {
        return Err(Refusal::Field);
    }
    Ok(Readings::Airborne(AirborneReadings {
        altitude: altitude_at(b.altitude),
        gnss: 20 <= b.typecode,
    }))
}

// Of a traffic service's message ME bit 36, which is the rate's source elsewhere, says whether a height difference stands in it.
#[tactic(auto, unfolding(crate::specs::Bodies::height_difference))]
fn height_difference(source: u8, below: u8, code: u8, traffic: bool) -> Difference
    ensures { result ≡ height_difference source below code traffic }
{
    if traffic & (source != 1) {
        return Difference::Unknown;
    }
    difference_at(below, code)
}

// The speeds to the east and to the north, the vertical rate and the height difference.
#[tactic(auto, unfolding(crate::specs::Bodies::readings_of))]
fn ground_readings(b: Ground, traffic: bool) -> Result<Readings, Refusal>
    ensures { result ≡ readings_of (Body.Ground b) traffic }
{
    if !layouts::ground_fits(b) {
        return Err(Refusal::Field);
    }
    let v = b.vertical;
    Ok(Readings::Ground(GroundReadings {
        east: speed_at(b.subtype, b.west, b.eastward),
        north: speed_at(b.subtype, b.south, b.northward),
        rate: rate_at(v.down, v.rate),
        difference: height_difference(v.source, v.below, v.difference, traffic),
    }))
}

// An airspeed has no direction bit: it is never below zero.
#[tactic(auto, unfolding(crate::specs::Bodies::readings_of))]
fn air_readings(b: Air, traffic: bool) -> Result<Readings, Refusal>
    ensures { result ≡ readings_of (Body.Air b) traffic }
{
    if !layouts::air_fits(b) {
        return Err(Refusal::Field);
    }
    let v = b.vertical;
    Ok(Readings::Air(AirReadings {
        heading: turn_of(10, u32::from(b.heading)),
        airspeed: speed_at(b.subtype, 0, b.airspeed),
        rate: rate_at(v.down, v.rate),
        difference: height_difference(v.source, v.below, v.difference, traffic),
    }))
}

// The version of the standard, and the supplements that it has.
#[tactic(auto, unfolding(crate::specs::Bodies::readings_of))]
fn status_readings(b: Status) -> Result<Readings, Refusal>
    ensures { (traffic : Bool) → result ≡ readings_of (Body.Status b) traffic }
{
    if !layouts::status_fits(b) {
        return Err(Refusal::Field);
    }
    Ok(Readings::Status(StatusReadings {
        version: version_of(b.version),
        supplementa: supplement_a_of(b.version, b.supplementa),
        supplementc: supplement_c_of(b.version, b.subtype, b.bit20),
    }))
}

// The pressure altitude, the track angle whatever its status bit says, and the speed.
#[tactic(auto, unfolding(crate::specs::Bodies::readings_of))]
fn coarse_readings(b: Coarse) -> Result<Readings, Refusal>
    ensures { (traffic : Bool) → result ≡ readings_of (Body.Coarse b) traffic }
{
    if !layouts::coarse_fits(b) {
        return Err(Refusal::Field);
    }
    Ok(Readings::Coarse(CoarseReadings {
        altitude: altitude_at(b.altitude),
        angle: turn_of(5, u32::from(b.angle)),
        speed: coarse_speed_at(b.speed),
    }))
}

// What the fields of a body mean, in a message of a traffic service or in another. One with a field wider than its bits, or a TYPE or subtype of another layout, is refused.
pub fn readings_of(b: Body, traffic: bool) -> Result<Readings, Refusal>
    ensures { result ≡ readings_of b traffic }
{
    match b {
        Body::Identification(x) => identification_readings(x),
        Body::Surface(x) => surface_readings(x),
        Body::Airborne(x) => airborne_readings(x),
        Body::Ground(x) => ground_readings(x, traffic),
        Body::Air(x) => air_readings(x, traffic),
        Body::Status(x) => status_readings(x),
        Body::Coarse(x) => coarse_readings(x),
    }
}

// The same of the 56 bits of ME in a layout, with no body between: a message that is decoded pays for it.
pub fn readings_in(layout: Layout, me: u64, traffic: bool) -> Result<Readings, Refusal>
    ensures { result ≡ readings_in (taken_as layout me) traffic }
{
    match layout {
        Layout::Identification => identification_readings(layouts::identification_of(me)),
        Layout::Surface => surface_readings(layouts::surface_of(me)),
        Layout::Airborne => airborne_readings(layouts::airborne_of(me)),
        Layout::Ground => ground_readings(layouts::ground_of(me), traffic),
        Layout::Air => air_readings(layouts::air_of(me), traffic),
        Layout::Status => status_readings(layouts::status_of(me)),
        Layout::Coarse => coarse_readings(layouts::coarse_of(me)),
        Layout::NotTaken => Err(Refusal::TypeCode),
    }
}
