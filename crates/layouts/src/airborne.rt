// Airborne position: TYPE 9-18 with pressure altitude, 20-22 with GNSS height; TYPE 0, which has the layout, a pressure altitude at most and no position.
ghost use Rattle.std.specs.Prelude.{◌≡◌, ◌&&◌};
ghost use Rattle.fields.specs.Packing.{pack, fits};
ghost use Rattle.layouts.specs.Layouts.{airborne_of, airborne_fields, airborne_widths, is_airborne};

use counts::{LatitudeCount, LongitudeCount};

#[derive(Clone, Copy)]
pub struct Airborne {
    pub typecode: u8,
    pub surveillance: u8,
    pub bit8: u8,
    pub altitude: u16,
    pub t: u8,
    // 0 even, 1 odd
    pub f: u8,
    pub latitude: LatitudeCount,
    pub longitude: LongitudeCount,
}

pub fn airborne_of(me: u64) -> Airborne
    ensures { result ≡ airborne_of me }
{
    Airborne {
        typecode: (me / 0x8_0000_0000_0000 % 32) as u8,
        surveillance: (me / 0x2_0000_0000_0000 % 4) as u8,
        bit8: (me / 0x1_0000_0000_0000 % 2) as u8,
        altitude: (me / 0x10_0000_0000 % 4096) as u16,
        t: (me / 0x8_0000_0000 % 2) as u8,
        f: (me / 0x4_0000_0000 % 2) as u8,
        latitude: LatitudeCount((me / 0x2_0000 % 0x2_0000) as u32),
        longitude: LongitudeCount((me % 0x2_0000) as u32),
    }
}

pub(crate) fn airborne_me(b: Airborne) -> u64
    ensures { result ≡ pack airborne_widths (airborne_fields b) }
{
    (b.typecode as u64) * 0x8_0000_0000_0000
        + (b.surveillance as u64) * 0x2_0000_0000_0000
        + (b.bit8 as u64) * 0x1_0000_0000_0000
        + (b.altitude as u64) * 0x10_0000_0000
        + (b.t as u64) * 0x8_0000_0000
        + (b.f as u64) * 0x4_0000_0000
        + (b.latitude.0 as u64) * 0x2_0000
        + (b.longitude.0 as u64)
}

// Whether each field fits its bits, and TYPE is of this layout.
pub fn airborne_fits(b: Airborne) -> bool
    ensures { result ≡ (fits airborne_widths (airborne_fields b) && is_airborne b.typecode) }
{
    (b.typecode < 32)
        & (b.surveillance < 4)
        & (b.bit8 < 2)
        & (b.altitude < 4096)
        & (b.t < 2)
        & (b.f < 2)
        & (b.latitude.0 < 0x2_0000)
        & (b.longitude.0 < 0x2_0000)
        & matches!(b.typecode, 0 | 9..=18 | 20..=22)
}
