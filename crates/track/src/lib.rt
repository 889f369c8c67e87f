// One aircraft's track by value, and its step by one message.
#![tactic(auto)]

mod held;
mod meaning;
mod replaced;

ghost use Rattle.std.specs.Prelude.{◌≡◌, cond, ◌-◌, ◌<◌, get_or, set};
ghost use Rattle.layouts.specs.Layouts.{airborne_of};
ghost use Rattle.layouts.specs.Coarse.{coarse_of};
ghost use Rattle.track.specs.Track.{format_of, placed_or, saved_track, airborne_step, coarse_track, surface_track, group_track, step_me, stepped, new_track, no_saved};
ghost use Rattle.track.specs.Code.{way_of, airborne_aloft, coarse_aloft};
ghost use Rattle.whereabouts.specs.Located.{size_of};

use counts::{LatitudeCount, LongitudeCount};
pub use held::is_in_date;
use layouts::{Airborne, Coarse, Layout, Surface};
pub use meaning::meant;
use messages::Message;
use positions::{Counts, Format, Size};
use refusals::Refusal;
use whereabouts::{Position, Saved, Site};

// What was last heard of each group: of four the ME that gave it, 0 where none did; of two the code of 12 bits, 0 where it is unknown. Of the latest position message its TYPE, 0 where none was heard,
// and bit 8 of ME, which one on the surface does not have; a coarse one has neither, and leaves both. Whether the velocity is a coarse message, which its bits do not tell.
// The marks are bools and no `Size`, since each is one bit of the lent bytes.
#[derive(Clone, Copy)]
pub struct Groups {
    pub identification: u64,
    pub velocity: u64,
    pub surface: u64,
    pub status: u64,
    pub pressure: u16,
    pub height: u16,
    pub typecode: u8,
    pub bit8: bool,
    pub coarse: bool,
}

#[derive(Clone, Copy)]
pub struct Track {
    pub heard: u64,
    pub groups: Groups,
    pub position: Position,
    // the latest even and the latest odd one, indexed by F
    pub saved: [Saved; 2],
}

// What a message from the air says: its F and counts, and the groups after it.
#[derive(Clone, Copy)]
struct Aloft {
    groups: Groups,
    coarse: bool,
    f: u8,
    counts: Counts,
}

// The decoder's answer passed on, and the track after it: a refusal leaves the track, which `slice_places` stores with its key all the same.
#[derive(Clone, Copy)]
pub struct Stepped {
    pub answer: Result<Message, Refusal>,
    pub track: Track,
}

pub(crate) fn no_saved() -> Saved
    ensures { result ≡ no_saved }
{
    Saved {
        known: false,
        coarse: false,
        counts: Counts {
            latitude: LatitudeCount(0),
            longitude: LongitudeCount(0),
        },
        time: 0,
    }
}

// A track that has heard nothing yet.
pub fn new_track() -> Track
    ensures { result ≡ new_track }
{
    let none = no_saved();
    Track {
        heard: 0,
        groups: replaced::no_groups(),
        position: whereabouts::no_position(),
        saved: [none, none],
    }
}

fn format_of(f: u8) -> Format
    requires { f < 2 }
    ensures { result ≡ format_of f }
{
    if f == 0 { Format::Even } else { Format::Odd }
}

// Where the message is placed; where it is not, since values are out of their range, the position stays.
fn placed_or(placed: Result<Position, Refusal>, p: Position) -> Position
    ensures { result ≡ placed_or placed p }
{
    placed.unwrap_or(p)
}

fn size_of(coarse: bool) -> Size
    ensures { result ≡ size_of coarse }
{
    if coarse { Size::Coarse } else { Size::Fine }
}

fn airborne_aloft(g: Groups, b: Airborne) -> Aloft
    ensures { result ≡ airborne_aloft g b }
{
    Aloft {
        groups: replaced::with_altitude(g, b.typecode, b.bit8, b.altitude),
        coarse: false,
        f: b.f,
        counts: Counts {
            latitude: b.latitude,
            longitude: b.longitude,
        },
    }
}

fn coarse_aloft(g: Groups, b: Coarse, me: u64) -> Aloft
    ensures { result ≡ coarse_aloft g b me }
{
    Aloft {
        groups: replaced::with_coarse(g, me, b.altitude),
        coarse: true,
        f: b.f,
        counts: Counts {
            latitude: b.latitude,
            longitude: b.longitude,
        },
    }
}

fn aloft_in(g: Groups, coarse: bool, me: u64) -> Aloft
    ensures { (result ≡ cond coarse (coarse_aloft g (coarse_of me) me) (airborne_aloft g (airborne_of me))) × (result.f < 2) }
{
    if coarse {
        coarse_aloft(g, layouts::coarse_of(me), me)
    } else {
        airborne_aloft(g, layouts::airborne_of(me))
    }
}

// The saved one of the other F.
fn other_of(both: [Saved; 2], f: u8) -> Saved
    requires { f < 2 }
    ensures { result ≡ get_or both (1 - f) no_saved }
{
    both[usize::from(1 - f)]
}

// The two saved ones, with another for that of its F.
fn with_own(both: [Saved; 2], f: u8, own: Saved) -> [Saved; 2]
    requires { f < 2 }
    ensures { result ≡ set both f own }
{
    let mut saved = both;
    saved[usize::from(f)] = own;
    saved
}

// A position in the air, fine or coarse, is saved by its F, and paired with the other one.
#[tactic(auto, unfolding(crate::specs::Track::saved_track))]
fn saved_track(t: Track, a: Aloft, time: u64) -> Track
    requires { a.f < 2 }
    ensures { result ≡ saved_track t a.groups a.coarse a.f a.counts time }
{
    let counts = a.counts;
    let own = Saved {
        known: true,
        coarse: a.coarse,
        counts,
        time,
    };
    let p = t.position;
    let partner = other_of(t.saved, a.f);
    let size = size_of(a.coarse);
    let format = format_of(a.f);
    Track {
        heard: time,
        groups: a.groups,
        position: placed_or(
            whereabouts::airborne_position(p, partner, size, counts, format, time),
            p,
        ),
        saved: with_own(t.saved, a.f, own),
    }
}

// A surface message clears the two saved ones.
#[tactic(auto, unfolding(crate::specs::Track::surface_track))]
fn surface_track(t: Track, b: Surface, me: u64, site: Site, time: u64) -> Track
    requires { b.f < 2 }
    ensures { result ≡ surface_track t b me site time }
{
    let cleared = no_saved();
    let saved = [cleared, cleared];
    let counts = Counts {
        latitude: b.latitude,
        longitude: b.longitude,
    };
    let p = t.position;
    Track {
        heard: time,
        groups: replaced::with_surface(t.groups, b.typecode, me),
        position: placed_or(
            whereabouts::surface_position(p, site, counts, format_of(b.f), time),
            p,
        ),
        saved,
    }
}

#[tactic(auto, unfolding(crate::specs::Track::group_track))]
fn group_track(t: Track, g: Groups, time: u64) -> Track
    ensures { result ≡ group_track t g time }
{
    Track {
        heard: time,
        groups: g,
        ..t
    }
}

// A message of the airborne layout, or a coarse one. One of TYPE 0 has no position, so its counts are no one's.
fn air_step(t: Track, coarse: bool, me: u64, time: u64) -> Track
    ensures { result ≡ cond coarse (coarse_track t (coarse_of me) me time) (airborne_step t (airborne_of me) time) }
{
    let g = t.groups;
    let b = layouts::airborne_of(me);
    if !coarse & (b.typecode == 0) {
        return group_track(t, replaced::with_reported(g, b.altitude), time);
    }
    saved_track(t, aloft_in(g, coarse, me), time)
}

// By which arm a message goes: a coarse one by that of the airborne layout, so that one place of the code calls what both need.
fn way_of(coarse: bool, me: u64) -> Layout
    ensures { result ≡ way_of coarse me }
{
    if coarse {
        Layout::Airborne
    } else {
        layouts::layout_of(me)
    }
}

// What the ME of a message, coarse or not, does to its track, by its layout: one that is not taken leaves it. Of the number 56 bits are read.
pub fn step_me(t: Track, coarse: bool, number: u64, site: Site, time: u64) -> Track
    ensures { result ≡ step_me t coarse number site time }
{
    let g = t.groups;
    let me = number % 0x100_0000_0000_0000;
    match way_of(coarse, me) {
        Layout::Identification => group_track(t, replaced::with_identification(g, me), time),
        Layout::Surface => surface_track(t, layouts::surface_of(me), me, site, time),
        Layout::Airborne => air_step(t, coarse, me, time),
        Layout::Ground | Layout::Air => group_track(t, replaced::with_velocity(g, me), time),
        Layout::Status => group_track(t, replaced::with_status(g, me), time),
        // no TYPE says Coarse
        Layout::Coarse | Layout::NotTaken => t,
    }
}

// What a message does to its track. A refusal is passed on; one whose ME fields do not fit is refused with 8.
pub fn step(t: Track, answer: Result<Message, Refusal>, site: Site, time: u64) -> Stepped
    ensures { result ≡ stepped t answer site time }
{
    let Ok(m) = answer else {
        return Stepped { answer, track: t };
    };
    let body = m.body;
    let Ok(me) = layouts::me_of(body) else {
        return Stepped {
            answer: Err(Refusal::Field),
            track: t,
        };
    };
    Stepped {
        answer,
        track: step_me(t, layouts::is_coarse(body), me, site, time),
    }
}
