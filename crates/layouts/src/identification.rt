// Identification: TYPE 1-4.
ghost use Rattle.std.specs.Prelude.{◌≡◌, ◌<◌, ◌^◌, ◌&&◌};
ghost use Rattle.fields.specs.Packing.{pack, fits};
ghost use Rattle.layouts.specs.Layouts.{identification_of, identification_fields, identification_widths, is_identification};

#[derive(Clone, Copy)]
pub struct Identification {
    pub typecode: u8,
    pub category: u8,
    // eight of 6 bits, the first the highest
    pub characters: u64,
}

pub fn identification_of(me: u64) -> Identification
    ensures { result ≡ identification_of me }
{
    Identification {
        typecode: (me / 0x8_0000_0000_0000 % 32) as u8,
        category: (me / 0x1_0000_0000_0000 % 8) as u8,
        characters: me % 0x1_0000_0000_0000,
    }
}

pub(crate) fn identification_me(b: Identification) -> u64
    requires { b.characters < 2 ^ 48 }
    ensures { result ≡ pack identification_widths (identification_fields b) }
{
    (b.typecode as u64) * 0x8_0000_0000_0000
        + (b.category as u64) * 0x1_0000_0000_0000
        + b.characters
}

// Whether each field fits its bits, and TYPE is of this layout.
pub fn identification_fits(b: Identification) -> bool
    ensures { result ≡ (fits identification_widths (identification_fields b) && is_identification b.typecode) }
{
    (b.typecode < 32)
        & (b.category < 8)
        & (b.characters < 0x1_0000_0000_0000)
        & ((1 <= b.typecode) & (b.typecode <= 4))
}
