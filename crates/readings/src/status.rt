// Operational status: the version of the standard, and the supplements that the version has.
ghost use Rattle.std.specs.Prelude.{◌≡◌};
ghost use Rattle.readings.specs.Status.{has_a, has_c, bit_c, version_of, supplement_of};

// The version; 3 to 7 are reserved.
pub(crate) fn version_of(code: u8) -> Option<u8>
    ensures { result ≡ version_of code }
{
    if code <= 2 { Some(code) } else { None }
}

fn supplement_of(has: bool, bit: u8) -> Option<u8>
    ensures { result ≡ supplement_of has bit }
{
    if has { Some(bit) } else { None }
}

// Supplement A, of versions 1 and 2.
pub(crate) fn supplement_a_of(version: u8, bit: u8) -> Option<u8>
    ensures { result ≡ supplement_of (has_a version) bit }
{
    supplement_of((1 <= version) & (version <= 2), bit)
}

// Supplement C, of version 2: bit 20 where the subtype is 1, else 0.
pub(crate) fn supplement_c_of(version: u8, subtype: u8, bit20: u8) -> Option<u8>
    ensures { result ≡ supplement_of (has_c version) (bit_c subtype bit20) }
{
    let bit = if subtype == 1 { bit20 } else { 0 };
    supplement_of(version == 2, bit)
}
