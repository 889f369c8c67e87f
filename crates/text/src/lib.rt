// A line of the listing as text, by value: every line fits, so that no buffer can be too small.
#![tactic(auto)]

mod numbers;
mod write;

ghost use Rattle.std.specs.Prelude.{◌≡◌, ◌+◌, ◌≤◌, length};
ghost use Rattle.text.specs.Code.{Wrote};
ghost use Rattle.text.specs.Lines.{space, field, figure, sender_text, key_text, header_text, row_text, line_room, line_of, text_in};

// How many bytes a line has room for: every line fits.
pub const LINE: usize = 128;

// A line in ASCII, the newline its last byte, then zeros. The length stands beside an array: no heap is allowed, and a line is passed by value.
#[derive(Clone, Copy)]
pub struct Line {
    pub bytes: [u8; LINE],
    pub len: usize,
}

impl Line {
    // The text, without the zeros behind it.
    pub fn as_bytes(&self) -> &[u8]
        ensures { result.now ≡ text_in self.now }
    {
        let end = self.len.min(LINE);
        &self.bytes[..end]
    }
}

// What a line says of a track.
#[derive(Clone, Copy)]
pub struct Row {
    pub key: u32,
    pub heard: u64,
    pub latitude: Option<i64>,
    pub longitude: Option<i64>,
    pub altitude: Option<i64>,
    // of the altitude: `report` makes both unknown together
    pub step: Option<i64>,
}

fn put_figure(out: &mut [u8], at: usize, f: Option<i64>) -> usize
    requires { at + 22 ≤ length out.old }
    ensures wrote { Wrote out.old at (figure f) result out.new }
    ensures upper_bound { result ≤ at + 22 }
{
    let a = write::put_byte(out, at, b' ');
    match f {
        Some(z) => numbers::put_signed(out, a, z),
        None => write::put_byte(out, a, b'-'),
    }
}

fn put_field(out: &mut [u8], at: usize, label: &[u8], n: u64) -> usize
    requires { at + length label.now + 20 ≤ length out.old }
    ensures wrote { Wrote out.old at (field label.now n) result out.new }
    ensures upper_bound { result ≤ at + length label.now + 20 }
{
    let a = write::put_text(out, at, label);
    numbers::put_decimal(out, a, n)
}

// A number behind a space, without a loop for the label.
fn put_number(out: &mut [u8], at: usize, n: u64) -> usize
    requires { at + 21 ≤ length out.old }
    ensures wrote { Wrote out.old at (field space n) result out.new }
    ensures upper_bound { result ≤ at + 21 }
{
    let a = write::put_byte(out, at, b' ');
    numbers::put_decimal(out, a, n)
}

// Of a key of C its flag and its station.
fn put_sender(out: &mut [u8], at: usize, key: u32) -> usize
    requires { at + 42 ≤ length out.old }
    ensures { Wrote out.old at (sender_text key) result out.new }
{
    if !keys::coarse_in(key) {
        return at;
    }
    let a = put_number(out, at, keys::flag_in(key) as u64);
    put_number(out, a, keys::station_in(key) as u64)
}

fn put_key(out: &mut [u8], at: usize, key: u32) -> usize
    requires { at + 50 ≤ length out.old }
    ensures wrote { Wrote out.old at (key_text key) result out.new }
    ensures upper_bound { result ≤ at + 14 }
{
    let a = write::put_byte(out, at, keys::letter_in(key));
    let a = write::put_byte(out, a, b' ');
    let a = numbers::put_hex(out, a, keys::address_in(key));
    put_sender(out, a, key)
}

fn fill_row(out: &mut [u8], row: Row) -> usize
    requires { line_room ≤ length out.old }
    ensures { Wrote out.old 0 (row_text row) result out.new }
{
    let a = put_key(out, 0, row.key);
    let a = put_number(out, a, row.heard);
    let a = put_figure(out, a, row.latitude);
    let a = put_figure(out, a, row.longitude);
    let a = put_figure(out, a, row.altitude);
    let a = put_figure(out, a, row.step);
    write::put_byte(out, a, b'\n')
}

fn fill_header(out: &mut [u8], clock: u64, tracks: u64, bad: u64) -> usize
    requires { line_room ≤ length out.old }
    ensures { Wrote out.old 0 (header_text clock tracks bad) result out.new }
{
    let a = put_field(out, 0, b"clock ", clock);
    let a = put_field(out, a, b" tracks ", tracks);
    let a = put_field(out, a, b" bad-blocks ", bad);
    write::put_byte(out, a, b'\n')
}

// The listing's first line.
pub fn header_line(clock: u64, tracks: u64, bad: u64) -> Line
    ensures { result ≡ line_of (header_text clock tracks bad) }
{
    let mut bytes = [0; LINE];
    let len = fill_header(&mut bytes, clock, tracks, bad);
    Line { bytes, len }
}

// The line of a track.
pub fn row_line(row: Row) -> Line
    ensures { result ≡ line_of (row_text row) }
{
    let mut bytes = [0; LINE];
    let len = fill_row(&mut bytes, row);
    Line { bytes, len }
}
