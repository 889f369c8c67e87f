// Operational status: TYPE 31, subtype 0 in the air and 1 on the surface.
ghost use Rattle.std.specs.Prelude.{◌≡◌, ◌<◌, ◌^◌, ◌&&◌};
ghost use Rattle.fields.specs.Packing.{pack, fits};
ghost use Rattle.layouts.specs.Status.{status_of, end_fields, end_widths, status_fields, status_widths, is_status};

#[derive(Clone, Copy)]
pub struct Status {
    pub typecode: u8,
    pub subtype: u8,
    // capability class
    pub class: u16,
    // of subtype 1 supplement C
    pub bit20: u8,
    // of subtype 1 length and width, of subtype 0 the end of the capability class
    pub width: u8,
    // operational mode
    pub mode: u16,
    // of the standard
    pub version: u8,
    pub supplementa: u8,
    pub nacp: u8,
    pub bits49: u8,
    pub sil: u8,
    pub bit53: u8,
    pub bit54: u8,
    pub bits55: u8,
}

pub fn status_of(me: u64) -> Status
    ensures { result ≡ status_of me }
{
    Status {
        typecode: (me / 0x8_0000_0000_0000 % 32) as u8,
        subtype: (me / 0x1_0000_0000_0000 % 8) as u8,
        class: (me / 0x20_0000_0000 % 2048) as u16,
        bit20: (me / 0x10_0000_0000 % 2) as u8,
        width: (me / 0x1_0000_0000 % 16) as u8,
        mode: (me / 0x1_0000 % 0x1_0000) as u16,
        version: (me / 0x2000 % 8) as u8,
        supplementa: (me / 0x1000 % 2) as u8,
        nacp: (me / 256 % 16) as u8,
        bits49: (me / 64 % 4) as u8,
        sil: (me / 16 % 4) as u8,
        bit53: (me / 8 % 2) as u8,
        bit54: (me / 4 % 2) as u8,
        bits55: (me % 4) as u8,
    }
}

// The bits from the version on.
fn end_me(b: Status) -> u64
    ensures { (result ≡ pack end_widths (end_fields b)) × (result < 2 ^ 32) }
{
    (b.version as u64) * 0x2000
        + (b.supplementa as u64) * 0x1000
        + (b.nacp as u64) * 256
        + (b.bits49 as u64) * 64
        + (b.sil as u64) * 16
        + (b.bit53 as u64) * 8
        + (b.bit54 as u64) * 4
        + (b.bits55 as u64)
}

pub(crate) fn status_me(b: Status) -> u64
    ensures { result ≡ pack status_widths (status_fields b) }
{
    (b.typecode as u64) * 0x8_0000_0000_0000
        + (b.subtype as u64) * 0x1_0000_0000_0000
        + (b.class as u64) * 0x20_0000_0000
        + (b.bit20 as u64) * 0x10_0000_0000
        + (b.width as u64) * 0x1_0000_0000
        + (b.mode as u64) * 0x1_0000
        + end_me(b)
}

// Whether each field fits its bits, and TYPE and subtype are of this layout.
pub fn status_fits(b: Status) -> bool
    ensures { result ≡ (fits status_widths (status_fields b) && is_status b.typecode b.subtype) }
{
    (b.typecode < 32)
        & (b.subtype < 8)
        & (b.class < 2048)
        & (b.bit20 < 2)
        & (b.width < 16)
        & ((b.mode as u32) < 0x1_0000)
        & (b.version < 8)
        & (b.supplementa < 2)
        & (b.nacp < 16)
        & (b.bits49 < 4)
        & (b.sil < 4)
        & (b.bit53 < 2)
        & (b.bit54 < 2)
        & (b.bits55 < 4)
        & ((b.typecode == 31) & (b.subtype <= 1))
}
