// Text in a buffer that has room for it, from a place on: a byte, and some bytes.
ghost use Rattle.std.specs.Prelude.{◌∷◌, [], ◌+◌, ◌<◌, ◌≤◌, length};
ghost use Rattle.text.specs.Code.{Wrote};

pub(crate) fn put_byte(out: &mut [u8], at: usize, b: u8) -> usize
    requires { at < length out.old }
    ensures { Wrote out.old at (b ∷ []) result out.new }
{
    out[at] = b;
    at + 1
}

// By a loop: of `copy_from_slice` the archives for processors of 32 bits are not made (tools/staticlib).
pub(crate) fn put_text(out: &mut [u8], at: usize, text: &[u8]) -> usize
    requires { at + length text.now ≤ length out.old }
    ensures { Wrote out.old at text.now result out.new }
{
    let mut a = at;
    for &b in text {
        a = put_byte(out, a, b);
    }
    a
}
