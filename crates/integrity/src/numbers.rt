// The numbers of the published tables, by TYPE: NUC of version 0, NIC of versions 1 and 2. Those of a TYPE that is no position message's are 0 and are not asked for.
ghost use Rattle.std.specs.Prelude.{◌≡◌, ◌<◌, get_or};
ghost use Rattle.integrity.specs.Code.{nucs, nics, nic1, nic2};

use crate::standard::Bits;

// Entry k is that of TYPE k. A `static` is read where it lies: a `const` would be written to the stack at each use.
static NUC: [u8; 32] = [
    0, 0, 0, 0, 0, 9, 8, 7, 6, 9, 8, 7, 6, 5, 4, 3, 2, 1, 0, 0, 9, 8, 0, 0, 0, 0, 0, 0, 0, 0, 0, 0,
];

// Likewise, where no supplement is 1: there versions 1 and 2 are alike.
static NIC: [u8; 32] = [
    0, 0, 0, 0, 0, 11, 10, 8, 0, 11, 10, 8, 7, 6, 5, 4, 2, 1, 0, 0, 11, 10, 0, 0, 0, 0, 0, 0, 0, 0,
    0, 0,
];

pub(crate) fn nuc(typecode: u8) -> u8
    requires { typecode < 32 }
    ensures { result ≡ get_or nucs typecode 0 }
{
    NUC[typecode as usize]
}

fn nic(typecode: u8) -> u8
    requires { typecode < 32 }
    ensures { result ≡ get_or nics typecode 0 }
{
    NIC[typecode as usize]
}

// By supplement A.
#[tactic(auto, unfolding(crate::specs::Code::nic1))]
pub(crate) fn nic_1(typecode: u8, s: Bits) -> u8
    requires { typecode < 32 }
    ensures { result ≡ nic1 typecode s }
{
    if s.a & ((typecode == 7) | (typecode == 11)) {
        return 9;
    }
    if s.a & (typecode == 16) {
        return 3;
    }
    nic(typecode)
}

// By A and C on the surface, by A and B in the air; a pair that has no row changes nothing.
#[tactic(auto, unfolding(crate::specs::Code::nic2))]
pub(crate) fn nic_2(typecode: u8, s: Bits) -> u8
    requires { typecode < 32 }
    ensures { result ≡ nic2 typecode s }
{
    if s.a & s.c & (typecode == 8) {
        return 7;
    }
    if (s.a | s.c) & (typecode == 8) {
        return 6;
    }
    if s.a & !s.c & (typecode == 7) {
        return 9;
    }
    if s.a & s.b & (typecode == 11) {
        return 9;
    }
    if s.a & s.b & (typecode == 16) {
        return 3;
    }
    nic(typecode)
}
