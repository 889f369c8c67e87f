// What the TYPE of a position message says of its integrity, which goes by the version of the standard: NUC of version 0, NIC of versions 1 and 2.
#![tactic(auto)]

mod numbers;
mod standard;

ghost use Rattle.std.specs.Prelude.{◌≡◌, ◌<◌};
ghost use Rattle.integrity.specs.Integrity.{integrity_by, integrity_of};

use keys::Kind;
use refusals::Refusal;
pub use standard::{Bits, supplements_of, version_of};

#[derive(Clone, Copy)]
pub enum Integrity {
    // of a version above 2, of C, or no position message was heard
    Unknown,
    Nuc(u8),
    Nic(u8),
}

#[tactic(auto, using(crate::proofs::Rows::by_version))]
fn integrity_by(version: u8, typecode: u8, s: Bits) -> Integrity
    requires { typecode < 32 }
    ensures { result ≡ integrity_by Integrity.Unknown Integrity.Nuc Integrity.Nic version typecode s }
{
    if !layouts::is_position(typecode) {
        return Integrity::Unknown;
    }
    if version == 0 {
        return Integrity::Nuc(numbers::nuc(typecode));
    }
    if version == 1 {
        return Integrity::Nic(numbers::nic_1(typecode, s));
    }
    if version == 2 {
        return Integrity::Nic(numbers::nic_2(typecode, s));
    }
    Integrity::Unknown
}

// The integrity of an aircraft's latest position message, by its TYPE and, of an airborne one, bit 8 of ME, and by the status ME that was last heard; 0 for what was not heard.
#[tactic(auto, unfolding(crate::specs::Integrity::integrity_of))]
pub fn integrity_of(kind: Kind, status: u64, typecode: u8, bit8: bool) -> Result<Integrity, Refusal>
    ensures { result ≡ integrity_of kind status typecode bit8 }
{
    if (32 <= typecode) | (0x100_0000_0000_0000 <= status) {
        return Err(Refusal::Field);
    }
    if keys::is_coarse(kind) {
        return Ok(Integrity::Unknown);
    }
    Ok(integrity_by(
        standard::version_in(kind, status),
        typecode,
        standard::bits_in(kind, status, bit8),
    ))
}
