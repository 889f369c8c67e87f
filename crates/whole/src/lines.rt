// The text of the entries: the header with their number, then the line of each, from its place.
ghost use Rattle.std.specs.Prelude.{◌≡◌, ◌+◌, ◌*◌, ◌≤◌, length, take, replicate};
ghost use Rattle.std.proofs.Math.Seq.{paste};
ghost use Rattle.order.specs.Sorted.{key_of};
ghost use Rattle.memory.specs.Offsets.{Room};
ghost use Rattle.table_bytes.specs.Layout.{clock_of};
ghost use Rattle.text.specs.Lines.{line_room};
ghost use Rattle.report.specs.Listing.{shown, row_of, as_list, texts};
ghost use Rattle.whole.specs.Code.{place_of, track_at, row_at, rows_at, listing_of, Within, Inside, Put, Added};

use positions::Spot;
use text::{Line, Row};
use whereabouts::Position;

fn place_of(e: u64) -> usize
    ensures { result ≡ place_of e }
{
    (e % order::PLACES) as usize
}

// Whether the track of an entry is shown.
fn is_shown(table: &[u8], n: usize, e: u64, all: bool) -> bool
    requires { Within n e × Room n table.now }
    ensures { result ≡ shown all (track_at table.now n e).position }
{
    let marks = memory::get4(table_bytes::body(table, n, place_of(e)), memory::MARKS);
    all | (marks / memory::KNOWN_MARK % 2 == 1)
}

// How many are shown.
fn count(table: &[u8], n: usize, order: &[u64], k: usize, all: bool) -> u64
    requires { Room n table.now × Inside order.now k n }
    ensures { result ≡ length (rows_at all table.now n (take k order.now)) }
{
    let mut rows: u64 = 0;
    let mut j: usize = 0;
    while j < k {
        if is_shown(table, n, order[j], all) {
            rows += 1;
        }
        j += 1;
    }
    rows
}

// What the line of an entry says, from the values of its place that a line needs: the whole track would cost more.
fn row_at(table: &[u8], n: usize, e: u64) -> Row
    requires { Within n e × Room n table.now }
    ensures { result ≡ row_of (key_of e) (track_at table.now n e) }
{
    let p = table_bytes::body(table, n, place_of(e));
    let marks = memory::get4(p, memory::MARKS);
    let position = Position {
        known: marks / memory::KNOWN_MARK % 2 == 1,
        spot: Spot {
            latitude: place::latitude_of(memory::get4(p, memory::LATITUDE)),
            longitude: memory::get4(p, memory::LONGITUDE),
        },
        time: 0,
    };
    report::row_from(
        (e / order::PLACES) as u32,
        memory::get8(p, memory::HEARD),
        position,
        (marks % memory::CODES) as u16,
    )
}

// A line with the zeros behind it: all its bytes, so that it is a copy of one length.
fn put_line(out: &mut [u8], at: usize, line: Line) -> usize
    requires { (at + line_room ≤ length out.old) × (length line.bytes ≡ line_room) × (line.len ≤ line_room) }
    ensures { (out.new ≡ paste out.old at line.bytes line_room) × (result ≡ at + line.len) }
{
    let bytes = line.bytes;
    let mut i: usize = 0;
    while i < text::LINE {
        out[at + i] = bytes[i];
        i += 1;
    }
    at + line.len
}

// The line of an entry, none if it is not shown.
fn put_entry(table: &[u8], n: usize, e: u64, all: bool, out: &mut [u8], at: usize) -> usize
    requires { Within n e × Room n table.now × (at + line_room ≤ length out.old) }
    ensures { (result ≤ at + line_room) × Added (texts (as_list (row_at all table.now n e))) at result out.old out.new }
{
    if !is_shown(table, n, e, all) {
        return at;
    }
    let line = text::row_line(row_at(table, n, e));
    put_line(out, at, line)
}

// The lines of the first k entries.
fn put_lines(
    table: &[u8],
    n: usize,
    order: &[u64],
    k: usize,
    all: bool,
    out: &mut [u8],
    from: usize,
) -> usize
    requires { Room n table.now × Inside order.now k n × (from + line_room * k ≤ length out.old) }
    ensures { Added (texts (rows_at all table.now n (take k order.now))) from result out.old out.new }
{
    let mut at = from;
    let mut j: usize = 0;
    while j < k {
        at = put_entry(table, n, order[j], all, out, at);
        j += 1;
    }
    at
}

// The header and the lines, in a buffer of zeros.
pub(crate) fn put_listing(
    table: &[u8],
    n: usize,
    order: &[u64],
    k: usize,
    bad: u64,
    all: bool,
    out: &mut [u8],
) -> usize
    requires { Room n table.now × Inside order.now k n × (line_room * (k + 1) ≤ length out.old) × (out.old ≡ replicate (length out.old) 0) }
    ensures { Put (listing_of bad (clock_of table.now) (rows_at all table.now n (take k order.now))) result out.new }
{
    let rows = count(table, n, order, k, all);
    let line = text::header_line(table_bytes::clock_of(table), rows, bad);
    let at = put_line(out, 0, line);
    put_lines(table, n, order, k, all, out, at)
}
