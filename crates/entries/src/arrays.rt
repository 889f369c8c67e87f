// What another language is handed: arrays that it lends, filled whole, and numbers below zero in 64 bits.
ghost use Rattle.std.specs.Prelude.{◌≡◌, length, get_or};
ghost use Rattle.refusals.specs.Said.{gives};
ghost use Rattle.entries.specs.Arrays.{filled, filled_by};
ghost use Rattle.entries.specs.Sent.{sent, given};
ghost use Rattle.entries.specs.Twos.{twos};

// The entry i of a slice; past its end the one for the rest.
fn entry_or<T: Copy>(values: &[T], i: usize, rest: T) -> T
    ensures { result ≡ get_or values.now i rest }
{
    if i < values.len() { values[i] } else { rest }
}

// The entry i of an array; 0 past its end.
pub fn entry(values: &[u64], i: usize) -> u64
    ensures { result ≡ get_or values.now i 0 }
{
    entry_or(values, i, 0)
}

// Fills a slice with the values, then with one more again and again.
// By a loop: the library's `fill` asks that T's clone cannot fail, which `Copy` does not say.
fn fill_with<T: Copy>(out: &mut [T], values: &[T], rest: T)
    ensures { out.new ≡ filled_by rest (length out.old) values.now }
{
    let mut i: usize = 0;
    while i < out.len() {
        out[i] = entry_or(values, i, rest);
        i += 1;
    }
}

// Fills an array with the values, then zeros.
#[tactic(auto, using(crate::proofs::Filling::filled_is))]
pub fn fill(out: &mut [u64], values: &[u64])
    ensures { out.new ≡ filled (length out.old) values.now }
{
    fill_with(out, values, 0);
}

// What a call hands out: fills the array with a list, then zeros, and answers 0.
pub fn give(out: &mut [u64], list: &[u64]) -> u32
    ensures { sent result out.new ≡ given out.old (gives list.now) }
{
    fill(out, list);
    0
}

// Fills a buffer with the bytes, then zeros.
#[tactic(auto, using(crate::proofs::Filling::filled_is))]
pub fn fill_bytes(out: &mut [u8], values: &[u8])
    ensures { out.new ≡ filled (length out.old) values.now }
{
    fill_with(out, values, 0);
}

// The two's complement of a number in 64 bits.
#[tactic(auto, using(crate::proofs::Twos::twos_is))]
pub fn twos_of(z: i32) -> u64
    ensures { result ≡ twos z }
{
    i64::from(z).cast_unsigned()
}
