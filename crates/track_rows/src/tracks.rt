// A track as 72 numbers: 30 as it is kept, 36 that people are shown, and 6 of its integrity.
ghost use Rattle.std.specs.Prelude.{◌≡◌};
ghost use Rattle.track_rows.specs.Tracks.{kept_row, track_row};

use crate::shown::shown_values;
use crate::standard::standard_values;
use crate::{KEPT, SHOWN, TRACK};
use entries::{altitude_reading, bit, fill, step_reading};
use track::Track;

// As it is kept. Written out, since the order of a row is C's interface.
fn kept_values(t: Track) -> [u64; KEPT]
    ensures { result ≡ kept_row t }
{
    let [even, odd] = t.saved;
    let g = t.groups;
    let p = t.position;
    let pressure = readings::altitude_of(g.pressure);
    let height = readings::altitude_of(g.height);
    let altitude = altitude_reading(pressure);
    let step = step_reading(pressure);
    let gnss = altitude_reading(height);
    let gnss_step = step_reading(height);
    [
        1,
        t.heard,
        g.identification,
        g.velocity,
        g.surface,
        g.status,
        u64::from(g.pressure),
        u64::from(g.height),
        u64::from(g.typecode),
        bit(g.bit8),
        bit(p.known),
        entries::twos_of(p.spot.latitude),
        u64::from(p.spot.longitude),
        p.time,
        bit(even.known),
        u64::from(even.counts.latitude.0),
        u64::from(even.counts.longitude.0),
        even.time,
        bit(odd.known),
        u64::from(odd.counts.latitude.0),
        u64::from(odd.counts.longitude.0),
        odd.time,
        altitude.what,
        altitude.value,
        step.what,
        step.value,
        gnss.what,
        gnss.value,
        gnss_step.what,
        gnss_step.value,
    ]
}

// A track as 72 numbers, of a key.
pub fn track_values(t: Track, key: u32) -> [u64; TRACK]
    ensures { result ≡ track_row key t }
{
    let kept = kept_values(t);
    let kind = keys::kind_in(key);
    let shown = shown_values(kind, t);
    let standard = standard_values(kind, t);
    let mut row = [0; TRACK];
    fill(&mut row[..KEPT], &kept);
    fill(&mut row[KEPT..KEPT + SHOWN], &shown);
    fill(&mut row[KEPT + SHOWN..], &standard);
    row
}
