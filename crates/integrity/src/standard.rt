// The version of the standard that an aircraft's messages are of, and its supplements.
ghost use Rattle.std.specs.Prelude.{◌≡◌};
ghost use Rattle.integrity.specs.Standard.{is_status, status_version, version_in, status_bits, bits_in, version_of, supplements_of};

use keys::Kind;
use layouts::Layout;
use refusals::Refusal;

// The supplements; one that the version does not have is 0.
#[derive(Clone, Copy)]
pub struct Bits {
    pub a: bool,
    pub b: bool,
    pub c: bool,
}

fn is_status(layout: Layout) -> bool
    ensures { result ≡ is_status layout }
{
    matches!(layout, Layout::Status)
}

#[tactic(auto, unfolding(crate::specs::Standard::status_version))]
fn status_version(status: u64) -> u8
    ensures { result ≡ status_version status }
{
    if is_status(layouts::layout_of(status)) {
        layouts::status_of(status).version
    } else {
        0
    }
}

#[tactic(auto, unfolding(crate::specs::Standard::version_in))]
pub(crate) fn version_in(kind: Kind, status: u64) -> u8
    ensures { result ≡ version_in kind status }
{
    if keys::is_traffic(kind) {
        1
    } else {
        status_version(status)
    }
}

// A of versions 1 and 2; B, bit 8 of a position, and C, bit 20 of a status of subtype 1, of version 2 alone.
#[tactic(auto, unfolding(crate::specs::Standard::status_bits))]
fn status_bits(status: u64, bit8: bool) -> Bits
    ensures { result ≡ status_bits status bit8 }
{
    let v = status_version(status);
    let s = layouts::status_of(status);
    Bits {
        a: (1 <= v) & (v <= 2) & (s.supplementa == 1),
        b: (v == 2) & bit8,
        c: (v == 2) & (s.subtype == 1) & (s.bit20 == 1),
    }
}

#[tactic(auto, unfolding(crate::specs::Standard::bits_in))]
pub(crate) fn bits_in(kind: Kind, status: u64, bit8: bool) -> Bits
    ensures { result ≡ bits_in kind status bit8 }
{
    if keys::is_traffic(kind) {
        return Bits {
            a: false,
            b: false,
            c: false,
        };
    }
    status_bits(status, bit8)
}

// The version, by the kind and the status ME that was last heard, 0 if none was.
pub fn version_of(kind: Kind, status: u64) -> Result<u8, Refusal>
    ensures { result ≡ version_of kind status }
{
    if 0x100_0000_0000_0000 <= status {
        return Err(Refusal::Field);
    }
    Ok(version_in(kind, status))
}

// The supplements, by these and bit 8 of ME of the latest airborne position.
pub fn supplements_of(kind: Kind, status: u64, bit8: bool) -> Result<Bits, Refusal>
    ensures { result ≡ supplements_of kind status bit8 }
{
    if 0x100_0000_0000_0000 <= status {
        return Err(Refusal::Field);
    }
    Ok(bits_in(kind, status, bit8))
}
