// Two listings as one, into a lent buffer. The texts are read where they are, and a line goes from its text to the buffer as it is.
#![tactic(auto)]

mod head;
mod key;
mod lines;

ghost use Rattle.std.specs.Prelude.{◌≡◌};
ghost use Rattle.merge.specs.Merged.{left, merged_into};

use refusals::Refusal;

// The listing of both, with zeros behind it, in a buffer that is as long as both texts. Or 1, then 16.
pub fn merge(a: &[u8], b: &[u8], out: &mut [u8]) -> Result<usize, Refusal>
    ensures { left result out.new ≡ merged_into a.now b.now out.old }
{
    if out.len() < a.len() {
        return Err(Refusal::Length);
    }
    if out.len() - a.len() != b.len() {
        return Err(Refusal::Length);
    }
    let x = head::head_of(a);
    let y = head::head_of(b);
    if !head::are_one(x, y) {
        return Err(Refusal::Form);
    }
    if !lines::rise(a, x.end, b, y.end) {
        return Err(Refusal::Form);
    }
    let line = text::header_line(x.clock, x.tracks + y.tracks, x.bad + y.bad);
    entries::fill_bytes(out, line.as_bytes());
    Ok(lines::put_lines(a, x.end, b, y.end, out, line.len))
}
