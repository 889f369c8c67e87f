// An ME as 28 numbers, its fields and its readings; who has a message adds what stands before ME.
ghost use Rattle.std.specs.Prelude.{◌≡◌, eqb, length};
ghost use Rattle.layouts.specs.Bodies.{taken_as};
ghost use Rattle.entries.specs.Arrays.{filled};
ghost use Rattle.rows.specs.Rows.{identification_four, surface_four, airborne_four, ground_four, air_four, status_four, coarse_four, refused_four, four_in, four_values, row_size, me_row, row_into};

use crate::widths::{number_of, put_fields};
use crate::{FIELDS, READINGS, ROW};
use entries::{
    Reading, altitude_reading, bit, coarse_speed_reading, difference_reading, heading_reading,
    movement_reading, only, rate_reading, set_reading, speed_reading, step_reading,
    supplement_reading, text_reading, version_reading,
};
use layouts::Layout;
use readings::{
    AirReadings, AirborneReadings, CoarseReadings, GroundReadings, IdentificationReadings,
    Readings, StatusReadings, SurfaceReadings,
};

// The readings of a layout.
#[derive(Clone, Copy)]
pub struct Four {
    pub first: Reading,
    pub second: Reading,
    pub third: Reading,
    pub fourth: Reading,
}

fn identification_four(m: IdentificationReadings) -> Four
    ensures { result ≡ identification_four m }
{
    Four {
        first: set_reading(Ok(m.set)),
        second: text_reading(Ok(m.text)),
        third: only(0),
        fourth: only(0),
    }
}

fn surface_four(m: SurfaceReadings) -> Four
    ensures { result ≡ surface_four m }
{
    Four {
        first: movement_reading(Ok(m.movement)),
        second: heading_reading(Ok(m.heading)),
        third: only(0),
        fourth: only(0),
    }
}

fn airborne_four(m: AirborneReadings) -> Four
    ensures { result ≡ airborne_four m }
{
    Four {
        first: altitude_reading(Ok(m.altitude)),
        second: Reading {
            what: 1,
            value: bit(m.gnss),
        },
        third: step_reading(Ok(m.altitude)),
        fourth: only(0),
    }
}

fn ground_four(m: GroundReadings) -> Four
    ensures { result ≡ ground_four m }
{
    Four {
        first: speed_reading(Ok(m.east)),
        second: speed_reading(Ok(m.north)),
        third: rate_reading(Ok(m.rate)),
        fourth: difference_reading(Ok(m.difference)),
    }
}

fn air_four(m: AirReadings) -> Four
    ensures { result ≡ air_four m }
{
    Four {
        first: heading_reading(Ok(m.heading)),
        second: speed_reading(Ok(m.airspeed)),
        third: rate_reading(Ok(m.rate)),
        fourth: difference_reading(Ok(m.difference)),
    }
}

fn status_four(m: StatusReadings) -> Four
    ensures { result ≡ status_four m }
{
    Four {
        first: version_reading(m.version),
        second: supplement_reading(m.supplementa),
        third: supplement_reading(m.supplementc),
        fourth: only(0),
    }
}

fn coarse_four(m: CoarseReadings) -> Four
    ensures { result ≡ coarse_four m }
{
    Four {
        first: altitude_reading(Ok(m.altitude)),
        second: step_reading(Ok(m.altitude)),
        third: heading_reading(Ok(m.angle)),
        fourth: coarse_speed_reading(Ok(m.speed)),
    }
}

fn refused_four() -> Four
    ensures { result ≡ refused_four }
{
    Four {
        first: only(5),
        second: only(5),
        third: only(5),
        fourth: only(5),
    }
}

// The readings of ME in a layout, in a traffic service's message or in another; all are refused where it has none.
fn four_in(layout: Layout, me: u64, traffic: bool) -> Four
    ensures { result ≡ four_in (taken_as layout me) traffic }
{
    match readings::readings_in(layout, me, traffic) {
        Ok(Readings::Identification(x)) => identification_four(x),
        Ok(Readings::Surface(x)) => surface_four(x),
        Ok(Readings::Airborne(x)) => airborne_four(x),
        Ok(Readings::Ground(x)) => ground_four(x),
        Ok(Readings::Air(x)) => air_four(x),
        Ok(Readings::Status(x)) => status_four(x),
        Ok(Readings::Coarse(x)) => coarse_four(x),
        Err(_) => refused_four(),
    }
}

// Fills an array with four readings.
fn put_four(out: &mut [u64], r: Four)
    ensures { out.new ≡ filled (length out.old) (four_values r) }
{
    let values = [
        r.first.what,
        r.first.value,
        r.second.what,
        r.second.value,
        r.third.what,
        r.third.value,
        r.fourth.what,
        r.fourth.value,
    ];
    entries::fill(out, &values);
}

// Fills an array of 28 entries, and says whether it is one; another it leaves as it was.
pub fn put_me(out: &mut [u64], layout: Layout, me: u64, traffic: bool) -> bool
    ensures { (result ≡ eqb (length out.old) row_size) × (out.new ≡ row_into out.old (me_row layout me traffic)) }
{
    if out.len() != ROW {
        return false;
    }
    entries::fill(&mut out[0..FIELDS], &[number_of(layout)]);
    put_fields(&mut out[FIELDS..READINGS], layout, me);
    let four = four_in(layout, me, traffic);
    put_four(&mut out[READINGS..ROW], four);
    true
}
