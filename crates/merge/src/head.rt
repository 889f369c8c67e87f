// A listing's header: its numbers are read, and its text is compared with the header of these numbers.
ghost use Rattle.std.specs.Prelude.{◌≡◌, ◌&&◌, ◌+◌, ◌≤◌, eqb, leb, length, drop};
ghost use Rattle.form.specs.Form.{is_digit};
ghost use Rattle.form.specs.Scan.{lines_from};
ghost use Rattle.merge.specs.Merged.{most, further as further_of};
ghost use Rattle.merge.specs.Code.{FieldAt, HeadOf};

const MOST: u64 = u64::MAX;

// A number, and where the text goes on behind it.
#[derive(Clone, Copy)]
pub(crate) struct Field {
    pub(crate) value: u64,
    pub(crate) end: usize,
}

// What a header says.
#[derive(Clone, Copy)]
pub(crate) struct Head {
    // whether the text is a listing
    pub(crate) right: bool,
    // where the lines of tracks begin
    pub(crate) end: usize,
    pub(crate) clock: u64,
    // how many lines of tracks there are
    pub(crate) tracks: u64,
    pub(crate) bad: u64,
}

fn is_digit(b: u8) -> bool
    ensures { result ≡ is_digit b }
{
    (48 <= b) & (b <= 57)
}

// A number with a digit behind it; one of more than 64 bits becomes the largest of them.
fn further(n: u64, b: u8) -> u64
    requires { (48 ≤ b) × (b ≤ 57) }
    ensures { result ≡ further_of n b }
{
    let d = (b - 48) as u64;
    if n < 0x1999_9999_9999_9999 {
        return 10 * n + d;
    }
    if 0x1999_9999_9999_9999 < n {
        return MOST;
    }
    if d < 6 {
        return 10 * n + d;
    }
    MOST
}

// The place behind so many bytes; one past the end is the end.
fn behind(s: &[u8], from: usize, label: usize) -> usize
    requires { from ≤ length s.now }
    ensures { (result ≤ length s.now) × (drop result s.now ≡ drop label (drop from s.now)) }
{
    if label <= s.len() - from {
        return from + label;
    }
    s.len()
}

// The number of the field that begins at a place, with a label of so many bytes.
fn field_in(s: &[u8], from: usize, label: usize) -> Field
    requires { from ≤ length s.now }
    ensures { FieldAt s.now from label result }
{
    let mut i = behind(s, from, label);
    let mut n: u64 = 0;
    while i < s.len() {
        let b = s[i];
        if !is_digit(b) {
            return Field { value: n, end: i };
        }
        n = further(n, b);
        i += 1;
    }
    Field { value: n, end: i }
}

// How many lines a text has from a place on.
fn count(s: &[u8], from: usize) -> u64
    requires { from ≤ length s.now }
    ensures { (result ≡ length (lines_from s.now from)) × (from + result ≤ length s.now) }
{
    let mut n: u64 = 0;
    let mut at = from;
    loop {
        let end = form::line_end(s, at);
        if end == 0 {
            return n;
        }
        at = end;
        n += 1;
    }
}

// What the header of a text says, of any text.
pub(crate) fn head_of(s: &[u8]) -> Head
    ensures { HeadOf s.now result }
{
    let end = form::line_end(s, 0);
    let tracks = count(s, end);
    let clock = field_in(&s[0..end], 0, 6);
    let middle = field_in(&s[0..end], clock.end, 8);
    let bad = field_in(&s[0..end], middle.end, 12);
    let line = text::header_line(clock.value, tracks, bad.value);
    let right = form::in_form(s) & form::same(&s[0..end], line.as_bytes());
    Head {
        right,
        end,
        clock: clock.value,
        tracks,
        bad: bad.value,
    }
}

// Whether two headers can become one: of listings with one clock, and the sum of the bad blocks has 64 bits.
pub(crate) fn are_one(x: Head, y: Head) -> bool
    ensures { result ≡ (x.right && y.right && eqb x.clock y.clock && leb (x.bad + y.bad) most) }
{
    x.right & y.right & (x.clock == y.clock) & (y.bad <= MOST - x.bad)
}
