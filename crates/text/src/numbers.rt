// Numbers as text: decimal in the fewest digits, hexadecimal in six, and with a sign. A buffer has room for the most digits, so that no digit is tested for. The digits are put by hand, for speed: every line of a listing passes here.
ghost use Rattle.std.specs.Prelude.{◌≡◌, ◌∷◌, [], ◌+◌, ◌%◌, ◌^◌, ◌≤◌, ◌<◌, length};
ghost use Rattle.text.specs.Code.{Wrote, two, four, eight};
ghost use Rattle.text.specs.Numbers.{decimal, hex, hex_digit, signed};

use crate::write::put_byte;

// Both digits by one division: w has the first as its low byte and the second above it, so that they are stored together.
fn put_two(out: &mut [u8], at: usize, n: u32) -> usize
    requires { (n < 100) × (at + 2 ≤ length out.old) }
    ensures { Wrote out.old at (two n) result out.new }
{
    let w = 0x3030 + 256 * n - 2559 * (n / 10);
    let a = put_byte(out, at, (w % 256) as u8);
    put_byte(out, a, (w / 256) as u8)
}

fn put_four(out: &mut [u8], at: usize, n: u32) -> usize
    requires { (n < 10 ^ 4) × (at + 4 ≤ length out.old) }
    ensures { Wrote out.old at (four n) result out.new }
{
    let a = put_two(out, at, n / 100);
    put_two(out, a, n % 100)
}

fn put_eight(out: &mut [u8], at: usize, n: u32) -> usize
    requires { (n < 10 ^ 8) × (at + 8 ≤ length out.old) }
    ensures { Wrote out.old at (eight n) result out.new }
{
    let a = put_four(out, at, n / 10000);
    put_four(out, a, n % 10000)
}

// At most four digits.
fn put_small(out: &mut [u8], at: usize, n: u32) -> usize
    requires { (n < 10 ^ 4) × (at + 4 ≤ length out.old) }
    ensures wrote { Wrote out.old at (decimal n) result out.new }
    ensures upper_bound { result ≤ at + 4 }
{
    if n < 10 {
        return put_byte(out, at, 48 + n as u8);
    }
    if n < 100 {
        return put_two(out, at, n);
    }
    if n < 1000 {
        let a = put_byte(out, at, 48 + (n / 100) as u8);
        return put_two(out, a, n % 100);
    }
    put_four(out, at, n)
}

// At most eight.
fn put_middle(out: &mut [u8], at: usize, n: u32) -> usize
    requires { (n < 10 ^ 8) × (at + 8 ≤ length out.old) }
    ensures wrote { Wrote out.old at (decimal n) result out.new }
    ensures upper_bound { result ≤ at + 8 }
{
    if n < 10000 {
        return put_small(out, at, n);
    }
    let a = put_small(out, at, n / 10000);
    put_four(out, a, n % 10000)
}

// At most twelve.
fn put_large(out: &mut [u8], at: usize, n: u64) -> usize
    requires { (n < 10 ^ 12) × (at + 12 ≤ length out.old) }
    ensures wrote { Wrote out.old at (decimal n) result out.new }
    ensures upper_bound { result ≤ at + 12 }
{
    if n < 100000000 {
        return put_middle(out, at, n as u32);
    }
    let a = put_small(out, at, (n / 100000000) as u32);
    put_eight(out, a, (n % 100000000) as u32)
}

pub(crate) fn put_decimal(out: &mut [u8], at: usize, n: u64) -> usize
    requires { at + 20 ≤ length out.old }
    ensures wrote { Wrote out.old at (decimal n) result out.new }
    ensures upper_bound { result ≤ at + 20 }
{
    if n < 100000000 {
        return put_middle(out, at, n as u32);
    }
    let a = put_large(out, at, n / 100000000);
    put_eight(out, a, (n % 100000000) as u32)
}

fn hex_digit(d: u32) -> u8
    requires { d < 16 }
    ensures { result ≡ hex_digit d }
{
    if d < 10 {
        return 48 + d as u8;
    }
    55 + d as u8
}

// The last digit to the base 16.
fn put_digit(out: &mut [u8], at: usize, n: u32) -> usize
    requires { at < length out.old }
    ensures { Wrote out.old at (hex_digit (n % 16) ∷ []) result out.new }
{
    put_byte(out, at, hex_digit(n % 16))
}

// The last six digits to the base 16.
pub(crate) fn put_hex(out: &mut [u8], at: usize, n: u32) -> usize
    requires { at + 6 ≤ length out.old }
    ensures { Wrote out.old at (hex 6 n) result out.new }
{
    let a = put_digit(out, at, n / 16 / 16 / 16 / 16 / 16);
    let a = put_digit(out, a, n / 16 / 16 / 16 / 16);
    let a = put_digit(out, a, n / 16 / 16 / 16);
    let a = put_digit(out, a, n / 16 / 16);
    let a = put_digit(out, a, n / 16);
    put_digit(out, a, n)
}

pub(crate) fn put_signed(out: &mut [u8], at: usize, z: i64) -> usize
    requires { at + 21 ≤ length out.old }
    ensures wrote { Wrote out.old at (signed z) result out.new }
    ensures upper_bound { result ≤ at + 21 }
{
    let n = signs::size_of(z);
    if signs::is_below(z) {
        let a = put_byte(out, at, b'-');
        return put_decimal(out, a, n);
    }
    put_decimal(out, at, n)
}
