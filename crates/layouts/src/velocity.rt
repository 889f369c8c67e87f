// Velocity: TYPE 19, over ground in subtypes 1 and 2, through air in subtypes 3 and 4. Both end alike.
ghost use Rattle.std.specs.Prelude.{◌≡◌, ◌<◌, ◌^◌, ◌&&◌};
ghost use Rattle.fields.specs.Packing.{pack, fits};
ghost use Rattle.layouts.specs.Velocity.{vertical_of, vertical_fields, vertical_widths, ground_of, ground_fields, air_of, air_fields, velocity_widths, is_ground, is_air};

// Vertical rate, and the difference of the two heights.
#[derive(Clone, Copy)]
pub struct Vertical {
    // of the rate: 0 geometric, 1 barometric
    pub source: u8,
    // the rate's sign: 1 down
    pub down: u8,
    pub rate: u16,
    // bits 47-48
    pub reserved: u8,
    // the difference's sign: 1 below
    pub below: u8,
    pub difference: u8,
}

#[derive(Clone, Copy)]
pub struct Ground {
    pub typecode: u8,
    pub subtype: u8,
    pub bit9: u8,
    pub bit10: u8,
    pub nacv: u8,
    // direction: 1 west
    pub west: u8,
    pub eastward: u16,
    // direction: 1 south
    pub south: u8,
    pub northward: u16,
    pub vertical: Vertical,
}

#[derive(Clone, Copy)]
pub struct Air {
    pub typecode: u8,
    pub subtype: u8,
    pub bit9: u8,
    pub bit10: u8,
    pub nacv: u8,
    // of the heading
    pub status: u8,
    pub heading: u16,
    pub airspeedkind: u8,
    pub airspeed: u16,
    pub vertical: Vertical,
}

fn vertical_of(me: u64) -> Vertical
    ensures { result ≡ vertical_of me }
{
    Vertical {
        source: (me / 0x10_0000 % 2) as u8,
        down: (me / 0x8_0000 % 2) as u8,
        rate: (me / 1024 % 512) as u16,
        reserved: (me / 256 % 4) as u8,
        below: (me / 128 % 2) as u8,
        difference: (me % 128) as u8,
    }
}

fn vertical_me(b: Vertical) -> u64
    ensures { (result ≡ pack vertical_widths (vertical_fields b)) × (result < 2 ^ 32) }
{
    (b.source as u64) * 0x10_0000
        + (b.down as u64) * 0x8_0000
        + (b.rate as u64) * 1024
        + (b.reserved as u64) * 256
        + (b.below as u64) * 128
        + (b.difference as u64)
}

pub fn ground_of(me: u64) -> Ground
    ensures { result ≡ ground_of me }
{
    Ground {
        typecode: (me / 0x8_0000_0000_0000 % 32) as u8,
        subtype: (me / 0x1_0000_0000_0000 % 8) as u8,
        bit9: (me / 0x8000_0000_0000 % 2) as u8,
        bit10: (me / 0x4000_0000_0000 % 2) as u8,
        nacv: (me / 0x800_0000_0000 % 8) as u8,
        west: (me / 0x400_0000_0000 % 2) as u8,
        eastward: (me / 0x1_0000_0000 % 1024) as u16,
        south: (me / 0x8000_0000 % 2) as u8,
        northward: (me / 0x20_0000 % 1024) as u16,
        vertical: vertical_of(me),
    }
}

pub fn air_of(me: u64) -> Air
    ensures { result ≡ air_of me }
{
    Air {
        typecode: (me / 0x8_0000_0000_0000 % 32) as u8,
        subtype: (me / 0x1_0000_0000_0000 % 8) as u8,
        bit9: (me / 0x8000_0000_0000 % 2) as u8,
        bit10: (me / 0x4000_0000_0000 % 2) as u8,
        nacv: (me / 0x800_0000_0000 % 8) as u8,
        status: (me / 0x400_0000_0000 % 2) as u8,
        heading: (me / 0x1_0000_0000 % 1024) as u16,
        airspeedkind: (me / 0x8000_0000 % 2) as u8,
        airspeed: (me / 0x20_0000 % 1024) as u16,
        vertical: vertical_of(me),
    }
}

pub(crate) fn ground_me(b: Ground) -> u64
    ensures { result ≡ pack velocity_widths (ground_fields b) }
{
    let v = vertical_me(b.vertical);
    (b.typecode as u64) * 0x8_0000_0000_0000
        + (b.subtype as u64) * 0x1_0000_0000_0000
        + (b.bit9 as u64) * 0x8000_0000_0000
        + (b.bit10 as u64) * 0x4000_0000_0000
        + (b.nacv as u64) * 0x800_0000_0000
        + (b.west as u64) * 0x400_0000_0000
        + (b.eastward as u64) * 0x1_0000_0000
        + (b.south as u64) * 0x8000_0000
        + (b.northward as u64) * 0x20_0000
        + v
}

pub(crate) fn air_me(b: Air) -> u64
    ensures { result ≡ pack velocity_widths (air_fields b) }
{
    let v = vertical_me(b.vertical);
    (b.typecode as u64) * 0x8_0000_0000_0000
        + (b.subtype as u64) * 0x1_0000_0000_0000
        + (b.bit9 as u64) * 0x8000_0000_0000
        + (b.bit10 as u64) * 0x4000_0000_0000
        + (b.nacv as u64) * 0x800_0000_0000
        + (b.status as u64) * 0x400_0000_0000
        + (b.heading as u64) * 0x1_0000_0000
        + (b.airspeedkind as u64) * 0x8000_0000
        + (b.airspeed as u64) * 0x20_0000
        + v
}

// Whether each field fits its bits, and TYPE and subtype are of this layout.
pub fn ground_fits(b: Ground) -> bool
    ensures { result ≡ (fits velocity_widths (ground_fields b) && is_ground b.typecode b.subtype) }
{
    let v = b.vertical;
    (b.typecode < 32)
        & (b.subtype < 8)
        & (b.bit9 < 2)
        & (b.bit10 < 2)
        & (b.nacv < 8)
        & (b.west < 2)
        & (b.eastward < 1024)
        & (b.south < 2)
        & (b.northward < 1024)
        & (v.source < 2)
        & (v.down < 2)
        & (v.rate < 512)
        & (v.reserved < 4)
        & (v.below < 2)
        & (v.difference < 128)
        & ((b.typecode == 19) & (1 <= b.subtype) & (b.subtype <= 2))
}

// Whether each field fits its bits, and TYPE and subtype are of this layout.
pub fn air_fits(b: Air) -> bool
    ensures { result ≡ (fits velocity_widths (air_fields b) && is_air b.typecode b.subtype) }
{
    let v = b.vertical;
    (b.typecode < 32)
        & (b.subtype < 8)
        & (b.bit9 < 2)
        & (b.bit10 < 2)
        & (b.nacv < 8)
        & (b.status < 2)
        & (b.heading < 1024)
        & (b.airspeedkind < 2)
        & (b.airspeed < 1024)
        & (v.source < 2)
        & (v.down < 2)
        & (v.rate < 512)
        & (v.reserved < 4)
        & (v.below < 2)
        & (v.difference < 128)
        & ((b.typecode == 19) & (3 <= b.subtype) & (b.subtype <= 4))
}
