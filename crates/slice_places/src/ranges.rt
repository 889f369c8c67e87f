// Whether a place is held: each of its values in its range, and its track in date.
ghost use Rattle.std.specs.Prelude.{◌≡◌};
ghost use Rattle.positions.specs.Positions.{count_size};
ghost use Rattle.whereabouts.specs.Located.{size_of};
ghost use Rattle.slice_places.specs.Ranges.{groups_fit, counts_fit, track_fits, in_range, is_held, holds};

use crate::Place;
use track::{Groups, Track};
use whereabouts::Saved;

#[tactic(auto, unfolding(crate::specs::Ranges::groups_fit))]
fn groups_fit(g: Groups) -> bool
    ensures { result ≡ groups_fit g }
{
    (g.identification < 72057594037927936)
        & (g.velocity < 72057594037927936)
        & (g.surface < 72057594037927936)
        & (g.status < 72057594037927936)
        & (g.pressure < 4096)
        & (g.height < 4096)
        & (g.typecode < 32)
}

fn count_size(coarse: bool) -> u32
    ensures { result ≡ count_size (size_of coarse) }
{
    if coarse { 4096 } else { 131072 }
}

#[tactic(auto, unfolding(crate::specs::Ranges::counts_fit))]
fn counts_fit(v: Saved) -> bool
    ensures { result ≡ counts_fit v }
{
    let size = count_size(v.coarse);
    (v.counts.latitude.0 < size) & (v.counts.longitude.0 < size)
}

#[tactic(auto, unfolding(crate::specs::Ranges::track_fits))]
fn track_fits(t: Track) -> bool
    ensures { result ≡ track_fits t }
{
    let [even, odd] = t.saved;
    groups_fit(t.groups)
        & whereabouts::pole_to_pole(t.position.spot)
        & counts_fit(even)
        & counts_fit(odd)
}

#[tactic(auto, unfolding(crate::specs::Ranges::in_range))]
fn in_range(p: Place) -> bool
    ensures { result ≡ in_range p }
{
    keys::is_key(p.key) & track_fits(p.track)
}

#[tactic(auto, unfolding(rules::specs::Form::is_held, track::specs::Meaning::meant))]
pub fn is_held(clock: u64, p: Place) -> bool
    ensures { result ≡ is_held clock p }
{
    in_range(p) & track::is_in_date(clock, p.track.heard)
}

// Ranges and age are tested only where the key is equal.
#[tactic(auto, unfolding(rules::specs::Form::holds))]
pub fn has_key(clock: u64, key: u32, p: Place) -> bool
    ensures { result ≡ holds clock key p }
{
    p.key == key && is_held(clock, p)
}
