// The integrity of a track: the version of the standard that its messages are of, three supplements, and what the TYPE of its latest position message says.
ghost use Rattle.std.specs.Prelude.{◌≡◌};
ghost use Rattle.entries.specs.Means.{reading};
ghost use Rattle.track_rows.specs.Standard.{version_number, supplement_bits, integrity_reading, standard_row};

use crate::STANDARD;
use entries::{Reading, bit, only};
use integrity::{Bits, Integrity};
use keys::Kind;
use refusals::Refusal;
use track::Track;

fn version_number(a: Result<u8, Refusal>) -> u64
    ensures { result ≡ version_number a }
{
    match a {
        Ok(n) => u64::from(n),
        Err(_) => 0,
    }
}

fn supplement_bits(a: Result<Bits, Refusal>) -> [u64; 3]
    ensures { result ≡ supplement_bits a }
{
    match a {
        Ok(s) => [bit(s.a), bit(s.b), bit(s.c)],
        Err(_) => [0; 3],
    }
}

fn numbered(what: u64, n: u8) -> Reading
    ensures { result ≡ reading what n }
{
    Reading {
        what,
        value: u64::from(n),
    }
}

// 0 unknown, 1 NUC, 2 NIC, 5 refused.
fn integrity_reading(a: Result<Integrity, Refusal>) -> Reading
    ensures { result ≡ integrity_reading a }
{
    match a {
        Ok(Integrity::Unknown) => only(0),
        Ok(Integrity::Nuc(n)) => numbered(1, n),
        Ok(Integrity::Nic(n)) => numbered(2, n),
        Err(_) => only(5),
    }
}

// Of a track of a kind.
pub(crate) fn standard_values(kind: Kind, t: Track) -> [u64; STANDARD]
    ensures { result ≡ standard_row kind t }
{
    let g = t.groups;
    let v = version_number(integrity::version_of(kind, g.status));
    let s = supplement_bits(integrity::supplements_of(kind, g.status, g.bit8));
    let r = integrity_reading(integrity::integrity_of(kind, g.status, g.typecode, g.bit8));
    [v, s[0], s[1], s[2], r.what, r.value]
}
