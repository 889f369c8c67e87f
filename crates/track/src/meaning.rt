// What a track means whose values may be any, as those that are read from a lent table: each then has a meaning in range.
// TYPE is tested here and not by `layout_of`, which branches: a message pays for it.
ghost use Rattle.std.specs.Prelude.{◌≡◌, cond};
ghost use Rattle.track.specs.Meaning.{gives_identification, gives_velocity, gives_surface, gives_status, meant_groups, meant_position, meant_saved, meant};

use crate::{Groups, Track, no_saved};
use positions::Spot;
use whereabouts::{Position, Saved};

fn gives_identification(me: u64) -> bool
    ensures { result ≡ gives_identification me }
{
    let t = me / 0x8_0000_0000_0000 % 32;
    (1 <= t) & (t <= 4)
}

// TYPE 19 and a subtype of 1-4, in one number; a coarse message's whatever its bits.
fn gives_velocity(coarse: bool, me: u64) -> bool
    ensures { result ≡ gives_velocity coarse me }
{
    let both = me / 0x1_0000_0000_0000 % 256;
    coarse | ((8 * 19 + 1 <= both) & (both <= 8 * 19 + 4))
}

fn gives_surface(me: u64) -> bool
    ensures { result ≡ gives_surface me }
{
    let t = me / 0x8_0000_0000_0000 % 32;
    (5 <= t) & (t <= 8)
}

// TYPE 31 and a subtype of 0 or 1, in one number: the seven bits above the lowest of the subtype's are 31 and two zeros.
fn gives_status(me: u64) -> bool
    ensures { result ≡ gives_status me }
{
    me / 0x2_0000_0000_0000 % 128 == 4 * 31
}

// Each value is chosen by itself, which compiles to no branch; an encoded position has so many that a branch costs less.
fn or_zero<T: Copy>(counts: bool, value: T, zero: T) -> T
    ensures { result ≡ cond counts value zero }
{
    if counts { value } else { zero }
}

#[tactic(auto, unfolding(crate::specs::Meaning::meant_groups))]
fn meant_groups(g: Groups) -> Groups
    ensures { result ≡ meant_groups g }
{
    Groups {
        identification: or_zero(gives_identification(g.identification), g.identification, 0),
        velocity: or_zero(gives_velocity(g.coarse, g.velocity), g.velocity, 0),
        surface: or_zero(gives_surface(g.surface), g.surface, 0),
        status: or_zero(gives_status(g.status), g.status, 0),
        ..g
    }
}

#[tactic(auto, unfolding(crate::specs::Meaning::meant_position))]
fn meant_position(p: Position) -> Position
    ensures { result ≡ meant_position p }
{
    Position {
        known: p.known,
        spot: Spot {
            latitude: or_zero(p.known, p.spot.latitude, 0),
            longitude: or_zero(p.known, p.spot.longitude, 0),
        },
        time: or_zero(p.known, p.time, 0),
    }
}

#[tactic(auto, unfolding(crate::specs::Meaning::meant_saved))]
fn meant_saved(v: Saved) -> Saved
    ensures { result ≡ meant_saved v }
{
    if v.known { v } else { no_saved() }
}

// An ME whose TYPE is not of its group says 'none heard', and what has no mark is none.
#[tactic(auto, unfolding(crate::specs::Meaning::meant))]
pub fn meant(t: Track) -> Track
    ensures { result ≡ meant t }
{
    let [even, odd] = t.saved;
    Track {
        heard: t.heard,
        groups: meant_groups(t.groups),
        position: meant_position(t.position),
        saved: [meant_saved(even), meant_saved(odd)],
    }
}
