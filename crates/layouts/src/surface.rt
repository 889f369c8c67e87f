// Surface position: TYPE 5-8.
ghost use Rattle.std.specs.Prelude.{◌≡◌, ◌&&◌};
ghost use Rattle.fields.specs.Packing.{pack, fits};
ghost use Rattle.layouts.specs.Layouts.{surface_of, surface_fields, surface_widths, is_surface};

use counts::{LatitudeCount, LongitudeCount};

#[derive(Clone, Copy)]
pub struct Surface {
    pub typecode: u8,
    pub movement: u8,
    // of the heading
    pub status: u8,
    pub heading: u8,
    pub t: u8,
    // 0 even, 1 odd
    pub f: u8,
    pub latitude: LatitudeCount,
    pub longitude: LongitudeCount,
}

pub fn surface_of(me: u64) -> Surface
    ensures { result ≡ surface_of me }
{
    Surface {
        typecode: (me / 0x8_0000_0000_0000 % 32) as u8,
        movement: (me / 0x1000_0000_0000 % 128) as u8,
        status: (me / 0x800_0000_0000 % 2) as u8,
        heading: (me / 0x10_0000_0000 % 128) as u8,
        t: (me / 0x8_0000_0000 % 2) as u8,
        f: (me / 0x4_0000_0000 % 2) as u8,
        latitude: LatitudeCount((me / 0x2_0000 % 0x2_0000) as u32),
        longitude: LongitudeCount((me % 0x2_0000) as u32),
    }
}

pub(crate) fn surface_me(b: Surface) -> u64
    ensures { result ≡ pack surface_widths (surface_fields b) }
{
    (b.typecode as u64) * 0x8_0000_0000_0000
        + (b.movement as u64) * 0x1000_0000_0000
        + (b.status as u64) * 0x800_0000_0000
        + (b.heading as u64) * 0x10_0000_0000
        + (b.t as u64) * 0x8_0000_0000
        + (b.f as u64) * 0x4_0000_0000
        + (b.latitude.0 as u64) * 0x2_0000
        + (b.longitude.0 as u64)
}

// Whether each field fits its bits, and TYPE is of this layout.
pub fn surface_fits(b: Surface) -> bool
    ensures { result ≡ (fits surface_widths (surface_fields b) && is_surface b.typecode) }
{
    (b.typecode < 32)
        & (b.movement < 128)
        & (b.status < 2)
        & (b.heading < 128)
        & (b.t < 2)
        & (b.f < 2)
        & (b.latitude.0 < 0x2_0000)
        & (b.longitude.0 < 0x2_0000)
        & ((5 <= b.typecode) & (b.typecode <= 8))
}
