// A track's key: AA with its kind, in one number, the kind above the 24 bits of the address; of C a flag and a station below them. The order of the numbers is the listing's: by kind, then by address, flag and station.
#![tactic(auto)]

ghost use Rattle.std.specs.Prelude.{◌≡◌};
ghost use Rattle.keys.specs.Keys.{letter_of, kind_at, is_kind, key_for, kind_in, letter_in, is_traffic, is_coarse, traffic_in, coarse_in, flag_in, station_in, address_in, is_key};

// The kinds in the order of their keys.
#[derive(Clone, Copy, Debug, PartialEq, Eq)]
pub enum Kind {
    I,
    O,
    T,
    M,
    N,
    // of coarse messages: the flag of the address, and the station
    C(u8, u8),
}

// Above the keys of I to N.
const FINE_END: u32 = 0x600_0000;

// The first key of C.
const COARSE: u32 = 0x8000_0000;

// Above every key.
pub const END: u32 = 0xA000_0000;

fn letter_of(kind: Kind) -> u8
    ensures { result ≡ letter_of kind }
{
    match kind {
        Kind::I => b'I',
        Kind::O => b'O',
        Kind::T => b'T',
        Kind::M => b'M',
        Kind::N => b'N',
        Kind::C(_, _) => b'C',
    }
}

// Whether a ground station's traffic service sends a kind.
pub fn is_traffic(kind: Kind) -> bool
    ensures { result ≡ is_traffic kind }
{
    matches!(kind, Kind::T | Kind::M | Kind::N | Kind::C(_, _))
}

// Whether a kind's messages are the coarse ones.
pub fn is_coarse(kind: Kind) -> bool
    ensures { result ≡ is_coarse kind }
{
    matches!(kind, Kind::C(_, _))
}

// The key of a kind and an address, which counts by its low 24 bits, as a flag by its lowest and a station by its low 4.
pub fn key_for(kind: Kind, address: u32) -> u32
    ensures { result ≡ key_for kind address }
{
    let low = address % 0x100_0000;
    match kind {
        Kind::I => 0x100_0000 + low,
        Kind::O => 0x200_0000 + low,
        Kind::T => 0x300_0000 + low,
        Kind::M => 0x400_0000 + low,
        Kind::N => 0x500_0000 + low,
        Kind::C(flag, station) => {
            COARSE + 32 * low + 16 * u32::from(flag % 2) + u32::from(station % 16)
        }
    }
}

// The kind with a number, as it stands above a key's address; of a number that no kind has the kind of the nearest.
pub fn kind_at(number: u32) -> Kind
    ensures { result ≡ kind_at number }
{
    match number {
        0 | 1 => Kind::I,
        2 => Kind::O,
        3 => Kind::T,
        4 => Kind::M,
        _ => Kind::N,
    }
}

// Whether some kind has the number.
pub fn is_kind(number: u32) -> bool
    ensures { result ≡ is_kind number }
{
    matches!(number, 1..=5)
}

// Whether a key is one of C.
pub fn coarse_in(key: u32) -> bool
    ensures { result ≡ coarse_in key }
{
    COARSE <= key
}

// The flag of a key of C.
pub fn flag_in(key: u32) -> u8
    ensures { result ≡ flag_in key }
{
    (key / 16 % 2) as u8
}

// The station of a key of C.
pub fn station_in(key: u32) -> u8
    ensures { result ≡ station_in key }
{
    (key % 16) as u8
}

// A key's kind; of a number that is no key that of the nearest below, or of the first.
pub fn kind_in(key: u32) -> Kind
    ensures { result ≡ kind_in key }
{
    if coarse_in(key) {
        return Kind::C(flag_in(key), station_in(key));
    }
    kind_at(key / 0x100_0000)
}

// A key's letter in ASCII.
pub fn letter_in(key: u32) -> u8
    ensures { result ≡ letter_in key }
{
    letter_of(kind_in(key))
}

// Whether a ground station's traffic service sends the messages of a key.
pub fn traffic_in(key: u32) -> bool
    ensures { result ≡ traffic_in key }
{
    is_traffic(kind_in(key))
}

// The 24 bits of a key's address.
pub fn address_in(key: u32) -> u32
    ensures { result ≡ address_in key }
{
    if coarse_in(key) {
        return key / 32 % 0x100_0000;
    }
    key % 0x100_0000
}

// Whether a number is the key of some kind and address.
pub fn is_key(key: u32) -> bool
    ensures { result ≡ is_key key }
{
    (0x100_0000..FINE_END).contains(&key) || (COARSE..END).contains(&key)
}
