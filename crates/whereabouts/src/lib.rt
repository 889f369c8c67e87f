// Where a message puts its aircraft: by its partner, or by one reference, or nowhere new. What is read and is out of its range earns 8, which is passed on.
#![tactic(auto)]

ghost use Rattle.std.specs.Prelude.{◌≡◌, eqb};
ghost use Rattle.refusals.specs.Numbers.{number_of};
ghost use Rattle.positions.specs.Positions.{pole_to_pole};
ghost use Rattle.whereabouts.specs.Located.{no_position, no_site, is_within, is_fresh, found_at, settled, read_near, read_singly, after_pair, paired_with, same_size, is_partner, airborne_position, surface_position};
ghost use Rattle.whereabouts.specs.Code.{tried_with};

use positions::{Counts, Format, Size, Spot, Turn};
use refusals::Refusal;

// An encoded position, airborne, with its time; whether its counts are coarse.
// Here and below `known` is no Option: a lent table may hold any values with the mark unset.
// `track::meant`, `replay::sited` and `slice_places::site_of` answer for such values too.
#[derive(Clone, Copy)]
pub struct Saved {
    pub known: bool,
    pub coarse: bool,
    pub counts: Counts,
    pub time: u64,
}

#[derive(Clone, Copy)]
pub struct Position {
    pub known: bool,
    pub spot: Spot,
    pub time: u64,
}

// Where the receiver stands, if that is known.
#[derive(Clone, Copy)]
pub struct Site {
    pub known: bool,
    pub spot: Spot,
}

pub fn no_position() -> Position
    ensures { result ≡ no_position }
{
    Position {
        known: false,
        spot: Spot {
            latitude: 0,
            longitude: 0,
        },
        time: 0,
    }
}

pub fn no_site() -> Site
    ensures { result ≡ no_site }
{
    Site {
        known: false,
        spot: Spot {
            latitude: 0,
            longitude: 0,
        },
    }
}

// Whether a spot's latitude is from pole to pole, as a site's has to be.
pub fn pole_to_pole(spot: Spot) -> bool
    ensures { result ≡ pole_to_pole spot.latitude }
{
    spot.latitude.unsigned_abs() <= 1073741824
}

fn is_within(most: u64, clock: u64, time: u64) -> bool
    ensures { result ≡ is_within most clock time }
{
    clock.saturating_sub(time) <= most
}

fn is_fresh(p: Position, clock: u64) -> bool
    ensures { result ≡ is_fresh p clock }
{
    p.known & is_within(120000, clock, p.time)
}

// A position found takes the message's time.
fn found_at(spot: Spot, time: u64) -> Position
    ensures { result ≡ found_at spot time }
{
    Position {
        known: true,
        spot,
        time,
    }
}

// 8 is passed on; of 9 and 10 something else comes.
fn is_passed_on(r: Refusal) -> bool
    ensures { result ≡ eqb (number_of r) 8 }
{
    matches!(r, Refusal::Field)
}

fn settle(found: Result<Spot, Refusal>, p: Position, time: u64) -> Result<Position, Refusal>
    ensures { result ≡ settled found p time }
{
    match found {
        Ok(spot) => Ok(found_at(spot, time)),
        Err(r) if is_passed_on(r) => Err(r),
        Err(_) => Ok(p),
    }
}

// Its parameters, and those of the functions below, are no struct: the definitions that `track` and `replay` cite take them one by one.
#[tactic(auto, unfolding(crate::specs::Located::read_near))]
fn read_near(
    reference: Spot,
    p: Position,
    size: Size,
    counts: Counts,
    turn: Turn,
    format: Format,
    time: u64,
) -> Result<Position, Refusal>
    ensures { result ≡ read_near reference p size counts turn format time }
{
    let found = positions::single(size, reference, counts, turn, format);
    settle(found, p, time)
}

// An airborne message without its partner.
#[tactic(auto, unfolding(crate::specs::Located::read_singly))]
fn read_singly(
    p: Position,
    size: Size,
    counts: Counts,
    format: Format,
    time: u64,
) -> Result<Position, Refusal>
    ensures { result ≡ read_singly p size counts format time }
{
    if !is_fresh(p, time) {
        return Ok(p);
    }
    read_near(p.spot, p, size, counts, Turn::Airborne, format, time)
}

#[tactic(auto, unfolding(crate::specs::Located::paired_with))]
fn paired_with(partner: Counts, size: Size, counts: Counts, format: Format) -> Result<Spot, Refusal>
    ensures { result ≡ paired_with partner size counts format }
{
    match format {
        Format::Even => positions::pair(size, counts, partner, Format::Even),
        Format::Odd => positions::pair(size, partner, counts, Format::Odd),
    }
}

fn after_pair(
    found: Result<Spot, Refusal>,
    p: Position,
    size: Size,
    counts: Counts,
    format: Format,
    time: u64,
) -> Result<Position, Refusal>
    ensures { result ≡ after_pair found p size counts format time }
{
    match found {
        Ok(spot) => Ok(found_at(spot, time)),
        Err(r) if is_passed_on(r) => Err(r),
        Err(_) => read_singly(p, size, counts, format, time),
    }
}

// Counts of one size are never paired with counts of the other.
fn same_size(coarse: bool, size: Size) -> bool
    ensures { result ≡ same_size coarse size }
{
    match size {
        Size::Fine => !coarse,
        Size::Coarse => coarse,
    }
}

#[tactic(auto, unfolding(crate::specs::Located::is_partner))]
fn is_partner(saved: Saved, size: Size, time: u64) -> bool
    ensures { result ≡ is_partner saved size time }
{
    saved.known & same_size(saved.coarse, size) & is_within(10000, time, saved.time)
}

// Without a partner 10, so that one place of the code reads singly.
fn tried_with(
    partner: Saved,
    size: Size,
    counts: Counts,
    format: Format,
    time: u64,
) -> Result<Spot, Refusal>
    ensures { result ≡ tried_with partner size counts format time }
{
    if !is_partner(partner, size, time) {
        return Err(Refusal::Zones);
    }
    paired_with(partner.counts, size, counts, format)
}

pub fn airborne_position(
    p: Position,
    partner: Saved,
    size: Size,
    counts: Counts,
    format: Format,
    time: u64,
) -> Result<Position, Refusal>
    ensures { result ≡ airborne_position p partner size counts format time }
{
    let found = tried_with(partner, size, counts, format, time);
    after_pair(found, p, size, counts, format, time)
}

#[tactic(auto, unfolding(crate::specs::Located::surface_position))]
pub fn surface_position(
    p: Position,
    site: Site,
    counts: Counts,
    format: Format,
    time: u64,
) -> Result<Position, Refusal>
    ensures { result ≡ surface_position p site counts format time }
{
    if is_fresh(p, time) {
        return read_near(p.spot, p, Size::Fine, counts, Turn::Surface, format, time);
    }
    if site.known {
        return read_near(
            site.spot,
            p,
            Size::Fine,
            counts,
            Turn::Surface,
            format,
            time,
        );
    }
    Ok(p)
}
