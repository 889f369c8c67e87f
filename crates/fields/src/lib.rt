// Bytes as one number, high byte first, and a number as bytes.
#![tactic(auto)]

ghost use Rattle.std.specs.Prelude.{◌≡◌, ◌%◌, ◌^◌, length};
ghost use Rattle.fields.specs.Bytes.{number, bytes_of};

// The number that bytes make, modulo 2^64: of up to eight bytes it is the number itself.
pub fn number_of(s: &[u8]) -> u64
    ensures { result ≡ number s.now % 2 ^ 64 }
{
    let mut n: u64 = 0;
    for &x in s {
        n = n % 0x100_0000_0000_0000 * 256 + u64::from(x);
    }
    n
}

// Writes the low bytes of a number, as many as out has; above its eight bytes a number has zeros.
pub fn put_number(out: &mut [u8], n: u64)
    ensures { out.new ≡ bytes_of (length out.old) n }
{
    let mut rest = n;
    // No `iter_mut().rev()`: it keeps a pointer in memory, and of such code the archives of 32 bits are not made (tools/staticlib).
    for i in (0..out.len()).rev() {
        out[i] = (rest % 256) as u8;
        rest /= 256;
    }
}
