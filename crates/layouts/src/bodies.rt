// ME as a whole: which layout it has, by its TYPE or as a coarse message, or that it is not taken.
ghost use Rattle.std.specs.Prelude.{◌≡◌, true};
ghost use Rattle.layouts.specs.Bodies.{layout_of, layout_by, type_by, is_taken, flag_in, station_in, taken_by, written, body_coarse, body_type, flag_of, station_of, body_me, body_fits};
ghost use Rattle.layouts.specs.Layouts.{is_position};

use crate::airborne::{Airborne, airborne_fits, airborne_me, airborne_of};
use crate::coarse::{Coarse, coarse_fits, coarse_me, coarse_of};
use crate::identification::{
    Identification, identification_fits, identification_me, identification_of,
};
use crate::status::{Status, status_fits, status_me, status_of};
use crate::surface::{Surface, surface_fits, surface_me, surface_of};
use crate::velocity::{Air, Ground, air_fits, air_me, air_of, ground_fits, ground_me, ground_of};
use refusals::Refusal;

// No trait gives the layouts their functions: `airborne_of_once`, `airborne_fits_once` and the like are theorems of these functions by name.
#[derive(Clone, Copy)]
pub enum Body {
    Identification(Identification),
    Surface(Surface),
    Airborne(Airborne),
    // velocity over ground
    Ground(Ground),
    // velocity through air
    Air(Air),
    // operational status
    Status(Status),
    // of the traffic service, without a TYPE
    Coarse(Coarse),
}

// Which layout ME has: the two of TYPE 19 and the one of TYPE 31 by their subtypes, and a coarse message's by no TYPE.
// `NotTaken` is a case and this no Option: tables with a row for each case match on it, and an Option would nest each match.
#[derive(Clone, Copy)]
pub enum Layout {
    Identification,
    Surface,
    Airborne,
    Ground,
    Air,
    Status,
    Coarse,
    NotTaken,
}

pub fn layout_of(me: u64) -> Layout
    ensures { result ≡ layout_of me }
{
    let t = me / 0x8_0000_0000_0000 % 32;
    let s = me / 0x1_0000_0000_0000 % 8;
    // One `match` would be a jump by a table, which takes longer than these tests on a feed's mix of TYPEs.
    if matches!(t, 1..=4) {
        return Layout::Identification;
    }
    if matches!(t, 5..=8) {
        return Layout::Surface;
    }
    if matches!(t, 0 | 9..=18 | 20..=22) {
        return Layout::Airborne;
    }
    if (t == 19) & matches!(s, 1..=2) {
        return Layout::Ground;
    }
    if (t == 19) & matches!(s, 3..=4) {
        return Layout::Air;
    }
    if (t == 31) & (s <= 1) {
        return Layout::Status;
    }
    Layout::NotTaken
}

// That of a coarse message, or else by TYPE.
pub fn layout_by(coarse: bool, me: u64) -> Layout
    ensures { result ≡ layout_by coarse me }
{
    if coarse {
        return Layout::Coarse;
    }
    layout_of(me)
}

// Whether a layout is one.
pub fn is_layout(layout: Layout) -> bool
    ensures { result ≡ is_taken layout }
{
    !matches!(layout, Layout::NotTaken)
}

// Whether ME has a layout, so that it does not earn 5. Every message is asked this: by its TYPE alone it costs less than by its layout.
pub fn is_taken(coarse: bool, me: u64) -> bool
    ensures { result ≡ is_taken (layout_by coarse me) }
{
    let t = me / 0x8_0000_0000_0000 % 32;
    let s = me / 0x1_0000_0000_0000 % 8;
    if coarse | (t <= 18) {
        return true;
    }
    if t == 19 {
        return (1 <= s) & (s <= 4);
    }
    if t == 31 {
        return s <= 1;
    }
    t <= 22
}

// TYPE of ME, which a coarse message does not have.
pub fn type_by(coarse: bool, me: u64) -> u8
    ensures { result ≡ type_by coarse me }
{
    if coarse {
        return 0;
    }
    (me / 0x8_0000_0000_0000 % 32) as u8
}

// Whether a message of a TYPE has a position.
pub fn is_position(typecode: u8) -> bool
    ensures { result ≡ is_position typecode }
{
    matches!(typecode, 5..=18 | 20..=22)
}

// The flag that tells the address of a traffic service's message, by ME's bit 1, 21, 8 or 9.
pub fn flag_in(coarse: bool, me: u64) -> u8
    ensures { result ≡ flag_in coarse me }
{
    match layout_by(coarse, me) {
        Layout::Surface => (me / 0x8_0000_0000 % 2) as u8,
        Layout::Airborne => (me / 0x1_0000_0000_0000 % 2) as u8,
        Layout::Ground | Layout::Air => (me / 0x8000_0000_0000 % 2) as u8,
        Layout::Coarse => (me / 0x80_0000_0000_0000 % 2) as u8,
        Layout::Identification | Layout::Status | Layout::NotTaken => 0,
    }
}

// The station of a coarse message.
pub fn station_in(coarse: bool, me: u64) -> u8
    ensures { result ≡ station_in coarse me }
{
    if coarse {
        return (me / 0x2_0000_0000_0000 % 16) as u8;
    }
    0
}

// What the 56 bits of ME say. What a number has above them is not read.
pub fn body_by(coarse: bool, me: u64) -> Result<Body, Refusal>
    ensures { result ≡ taken_by coarse me }
{
    match layout_by(coarse, me) {
        Layout::Identification => Ok(Body::Identification(identification_of(me))),
        Layout::Surface => Ok(Body::Surface(surface_of(me))),
        Layout::Airborne => Ok(Body::Airborne(airborne_of(me))),
        Layout::Ground => Ok(Body::Ground(ground_of(me))),
        Layout::Air => Ok(Body::Air(air_of(me))),
        Layout::Status => Ok(Body::Status(status_of(me))),
        Layout::Coarse => Ok(Body::Coarse(coarse_of(me))),
        Layout::NotTaken => Err(Refusal::TypeCode),
    }
}

// Whether a body is a coarse message's.
pub fn is_coarse(b: Body) -> bool
    ensures { result ≡ body_coarse b }
{
    matches!(b, Body::Coarse(_))
}

// TYPE.
pub fn type_of(b: Body) -> u8
    ensures { result ≡ body_type b }
{
    match b {
        Body::Identification(x) => x.typecode,
        Body::Surface(x) => x.typecode,
        Body::Airborne(x) => x.typecode,
        Body::Ground(x) => x.typecode,
        Body::Air(x) => x.typecode,
        Body::Status(x) => x.typecode,
        Body::Coarse(_) => 0,
    }
}

// The same flag of a body.
pub fn flag_of(b: Body) -> u8
    ensures { result ≡ flag_of b }
{
    match b {
        Body::Surface(x) => x.t,
        Body::Airborne(x) => x.bit8,
        Body::Ground(x) => x.bit9,
        Body::Air(x) => x.bit9,
        Body::Coarse(x) => x.flag,
        Body::Identification(_) | Body::Status(_) => 0,
    }
}

// The same station of a body.
pub fn station_of(b: Body) -> u8
    ensures { result ≡ station_of b }
{
    let Body::Coarse(x) = b else {
        return 0;
    };
    x.station
}

// Whether each field fits its bits and the TYPE and subtype are those of the layout.
fn body_fits(b: Body) -> bool
    ensures { result ≡ body_fits b }
{
    match b {
        Body::Identification(x) => identification_fits(x),
        Body::Surface(x) => surface_fits(x),
        Body::Airborne(x) => airborne_fits(x),
        Body::Ground(x) => ground_fits(x),
        Body::Air(x) => air_fits(x),
        Body::Status(x) => status_fits(x),
        Body::Coarse(x) => coarse_fits(x),
    }
}

// The 56 bits of a body that fits.
fn body_me(b: Body) -> u64
    requires { body_fits b ≡ true }
    ensures { result ≡ body_me b }
{
    match b {
        Body::Identification(x) => identification_me(x),
        Body::Surface(x) => surface_me(x),
        Body::Airborne(x) => airborne_me(x),
        Body::Ground(x) => ground_me(x),
        Body::Air(x) => air_me(x),
        Body::Status(x) => status_me(x),
        Body::Coarse(x) => coarse_me(x),
    }
}

// The 56 bits that say it.
pub fn me_of(b: Body) -> Result<u64, Refusal>
    ensures { result ≡ written b }
{
    if !body_fits(b) {
        return Err(Refusal::Field);
    }
    Ok(body_me(b))
}
