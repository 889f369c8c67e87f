// The lines of two texts in the order of their keys: each step takes the line with the lower key, so that nothing is searched for.
ghost use Rattle.std.specs.Prelude.{◌≡◌, ◌+◌, ◌-◌, ◌≤◌, length};
ghost use Rattle.form.specs.Scan.{part, lines_from};
ghost use Rattle.text.specs.Code.{Wrote};
ghost use Rattle.merge.specs.Merged.{in_order, rising, joined};
ghost use Rattle.merge.specs.Code.{NextOf};

use crate::key::key_in;

// The next line: where both texts go on behind it, and its key.
#[derive(Clone, Copy)]
struct Next {
    more: bool,
    i: usize,
    j: usize,
    key: u32,
}

fn next_line(a: &[u8], i: usize, b: &[u8], j: usize) -> Next
    requires { (i ≤ length a.now) × (j ≤ length b.now) }
    ensures { NextOf a.now i b.now j result }
{
    let e = form::line_end(a, i);
    let f = form::line_end(b, j);
    if e == 0 {
        if f == 0 {
            return Next {
                more: false,
                i: i,
                j: j,
                key: 0,
            };
        }
        return Next {
            more: true,
            i: i,
            j: f,
            key: key_in(&b[j..f - 1]),
        };
    }
    let first = key_in(&a[i..e - 1]);
    if f == 0 {
        return Next {
            more: true,
            i: e,
            j: j,
            key: first,
        };
    }
    let second = key_in(&b[j..f - 1]);
    if first < second {
        return Next {
            more: true,
            i: e,
            j: j,
            key: first,
        };
    }
    Next {
        more: true,
        i: i,
        j: f,
        key: second,
    }
}

// Whether each line has a key, above that of the line before it.
pub(crate) fn rise(a: &[u8], first: usize, b: &[u8], second: usize) -> bool
    requires { (first ≤ length a.now) × (second ≤ length b.now) }
    ensures { result ≡ rising 0 (in_order (lines_from a.now first) (lines_from b.now second)) }
{
    let mut last: u32 = 0;
    let mut i = first;
    let mut j = second;
    loop {
        let line = next_line(a, i, b, j);
        if !line.more {
            return true;
        }
        if line.key <= last {
            return false;
        }
        last = line.key;
        i = line.i;
        j = line.j;
    }
}

// A part of a text, from a place of the buffer on. By a loop, as `text` has it: of `copy_from_slice` not all archives are made.
fn put_part(out: &mut [u8], at: usize, s: &[u8], from: usize, to: usize) -> usize
    requires { (from ≤ to) × (to ≤ length s.now) × (at + (to - from) ≤ length out.old) }
    ensures { Wrote out.old at (part from to s.now) result out.new }
{
    let mut k = at;
    for i in from..to {
        out[k] = s[i];
        k += 1;
    }
    k
}

// The lines, from a place of the buffer on.
pub(crate) fn put_lines(
    a: &[u8],
    first: usize,
    b: &[u8],
    second: usize,
    out: &mut [u8],
    from: usize,
) -> usize
    requires { (first ≤ length a.now) × (second ≤ length b.now) × (from + (length a.now - first) + (length b.now - second) ≤ length out.old) }
    ensures { Wrote out.old from (joined (in_order (lines_from a.now first) (lines_from b.now second))) result out.new }
{
    let mut at = from;
    let mut i = first;
    let mut j = second;
    loop {
        let line = next_line(a, i, b, j);
        if !line.more {
            return at;
        }
        let middle = put_part(out, at, a, i, line.i);
        at = put_part(out, middle, b, j, line.j);
        i = line.i;
        j = line.j;
    }
}
