// A coarse traffic message, DF 18 with CF 3: a position, an altitude and a velocity in one ME without a TYPE.
ghost use Rattle.std.specs.Prelude.{◌≡◌, ◌<◌, ◌^◌};
ghost use Rattle.fields.specs.Packing.{pack, fits};
ghost use Rattle.layouts.specs.Coarse.{coarse_of, coarse_fields, position_fields, position_widths, coarse_widths};

use counts::{LatitudeCount, LongitudeCount};

#[derive(Clone, Copy)]
pub struct Coarse {
    // of the address: 0 ICAO, 1 Mode A code and track number
    pub flag: u8,
    pub surveillance: u8,
    // the ground station, by its service volume
    pub station: u8,
    pub altitude: u16,
    // of the angle: 1 valid
    pub status: u8,
    // track angle
    pub angle: u8,
    pub speed: u8,
    // 0 even, 1 odd
    pub f: u8,
    pub latitude: LatitudeCount,
    pub longitude: LongitudeCount,
}

pub fn coarse_of(me: u64) -> Coarse
    ensures { result ≡ coarse_of me }
{
    Coarse {
        flag: (me / 0x80_0000_0000_0000 % 2) as u8,
        surveillance: (me / 0x20_0000_0000_0000 % 4) as u8,
        station: (me / 0x2_0000_0000_0000 % 16) as u8,
        altitude: (me / 0x20_0000_0000 % 4096) as u16,
        status: (me / 0x10_0000_0000 % 2) as u8,
        angle: (me / 0x8000_0000 % 32) as u8,
        speed: (me / 0x200_0000 % 64) as u8,
        f: (me / 0x100_0000 % 2) as u8,
        latitude: LatitudeCount((me / 4096 % 4096) as u32),
        longitude: LongitudeCount((me % 4096) as u32),
    }
}

// The bits from F on.
fn position_me(b: Coarse) -> u64
    ensures { (result ≡ pack position_widths (position_fields b)) × (result < 2 ^ 45) }
{
    (b.f as u64) * 0x100_0000 + (b.latitude.0 as u64) * 4096 + (b.longitude.0 as u64)
}

pub(crate) fn coarse_me(b: Coarse) -> u64
    ensures { result ≡ pack coarse_widths (coarse_fields b) }
{
    (b.flag as u64) * 0x80_0000_0000_0000
        + (b.surveillance as u64) * 0x20_0000_0000_0000
        + (b.station as u64) * 0x2_0000_0000_0000
        + (b.altitude as u64) * 0x20_0000_0000
        + (b.status as u64) * 0x10_0000_0000
        + (b.angle as u64) * 0x8000_0000
        + (b.speed as u64) * 0x200_0000
        + position_me(b)
}

// Whether each field fits its bits.
pub fn coarse_fits(b: Coarse) -> bool
    ensures { result ≡ fits coarse_widths (coarse_fields b) }
{
    (b.flag < 2)
        & (b.surveillance < 4)
        & (b.station < 16)
        & (b.altitude < 4096)
        & (b.status < 2)
        & (b.angle < 32)
        & (b.speed < 64)
        & (b.f < 2)
        & (b.latitude.0 < 4096)
        & (b.longitude.0 < 4096)
}
