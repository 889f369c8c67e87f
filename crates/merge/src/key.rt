// The key of a line in the form of a listing.
ghost use Rattle.std.specs.Prelude.{◌≡◌, ◌≤◌};
ghost use Rattle.merge.specs.Merged.{byte_at, hex_value, address_of, kind_by, sender_fits, flag_of, station_of, key_in};

use keys::Kind;

// The byte i of a line; 0 past its end.
fn byte_at(line: &[u8], i: usize) -> u8
    ensures { result ≡ byte_at line.now i }
{
    if i < line.len() { line[i] } else { 0 }
}

fn hex_value(b: u8) -> u32
    ensures value { result ≡ hex_value b }
    ensures upper_bound { result ≤ 200 }
{
    if b <= 57 {
        return u32::from(b.saturating_sub(48));
    }
    u32::from(b.saturating_sub(55))
}

// Six digits to the base 16.
fn address_of(line: &[u8]) -> u32
    ensures { result ≡ address_of line.now }
{
    let n = hex_value(byte_at(line, 2));
    let n = 16 * n + hex_value(byte_at(line, 3));
    let n = 16 * n + hex_value(byte_at(line, 4));
    let n = 16 * n + hex_value(byte_at(line, 5));
    let n = 16 * n + hex_value(byte_at(line, 6));
    16 * n + hex_value(byte_at(line, 7))
}

fn kind_by(b: u8) -> Kind
    ensures { result ≡ kind_by b }
{
    if b == b'I' {
        return Kind::I;
    }
    if b == b'O' {
        return Kind::O;
    }
    if b == b'T' {
        return Kind::T;
    }
    if b == b'M' {
        return Kind::M;
    }
    Kind::N
}

// Whether the flag of a line of C is 0 or 1, and its station from 0 to 15.
fn sender_fits(line: &[u8]) -> bool
    ensures { result ≡ sender_fits line.now }
{
    let flag = byte_at(line, 9);
    let ten = byte_at(line, 11);
    let one = byte_at(line, 12);
    let is_small = (one == 32) & (48 <= ten) & (ten <= 57);
    let is_teen = (ten == 49) & (48 <= one) & (one <= 53) & (byte_at(line, 13) == 32);
    ((flag == 48) | (flag == 49)) & (byte_at(line, 10) == 32) & (is_small | is_teen)
}

fn station_of(line: &[u8]) -> u8
    ensures { result ≡ station_of line.now }
{
    let one = byte_at(line, 12);
    if one == 32 {
        return byte_at(line, 11).saturating_sub(48);
    }
    10 + one.saturating_sub(48)
}

// The key, or 0, which is none: so `key_in` of specs/Merged says, and the order of lines begins above 0.
pub(crate) fn key_in(line: &[u8]) -> u32
    ensures { result ≡ key_in line.now }
{
    let letter = byte_at(line, 0);
    let address = address_of(line);
    if letter != b'C' {
        return keys::key_for(kind_by(letter), address);
    }
    if !sender_fits(line) {
        return 0;
    }
    keys::key_for(
        Kind::C(byte_at(line, 9).saturating_sub(48), station_of(line)),
        address,
    )
}
