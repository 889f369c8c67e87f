// The listing of a lent table, line by line: the header with its counts, and the line of a key; of all tracks, or of those with a position. A caller walks the keys by `table::next`.
#![tactic(auto)]

mod row;

ghost use Rattle.std.specs.Prelude.{◌≡◌, ◌<◌, true, length, Some};
ghost use Rattle.track.specs.Held.{track_or_new};
ghost use Rattle.table.specs.Table.{looked_up};
ghost use Rattle.memory.specs.Offsets.{Room, whole_places};
ghost use Rattle.report.specs.Listing.{shown, row_of, row_for, rows_in, reported, header_in, line_in};
ghost use Rattle.report.specs.Code.{has_row};

use refusals::Refusal;
pub use row::row_from;
use text::{Line, Row};
use track::Track;
use whereabouts::Position;

// Whether a track with this position is shown.
fn is_shown(p: Position, all: bool) -> bool
    ensures { result ≡ shown all p }
{
    all | p.known
}

// Whether the place i of n has a row: it is the first of its key, so that one held twice counts once, and its track is shown.
fn has_row(table: &[u8], n: usize, i: usize, clock: u64, all: bool) -> bool
    requires { (i < n) × Room n table.now }
    ensures { result ≡ has_row all clock table.now n i }
{
    if table_bytes::is_first(table, n, i, clock) {
        let track = place::load(table_bytes::body(table, n, i));
        is_shown(track.position, all)
    } else {
        false
    }
}

// How many rows the listing has.
fn count(table: &[u8], all: bool) -> u64
    requires { whole_places (length table.now) ≡ true }
    ensures { result ≡ length (rows_in all table.now) }
{
    let n = table_bytes::places_in(table);
    let clock = table_bytes::clock_of(table);
    let mut rows: u64 = 0;
    for i in 0..n {
        if has_row(table, n, i, clock, all) {
            rows += 1;
        }
    }
    rows
}

// The listing's first line, of the table as it stands and a number of bad blocks: of all tracks, or of those with a position.
pub fn header_of(table: &[u8], bad: u64, all: bool) -> Result<Line, Refusal>
    ensures { result ≡ header_in all table.now bad }
{
    let time = table::clock_of(table)?;
    Ok(text::header_line(time, count(table, all), bad))
}

// The line of a track, if it is shown.
fn track_line(key: u32, track: Track, all: bool) -> Option<Line>
    ensures { result ≡ reported (row_for all key (Some track)) }
{
    if is_shown(track.position, all) {
        Some(text::row_line(row::row_of(key, track)))
    } else {
        None
    }
}

// The line of a key, if the table holds it, and it is shown.
pub fn line_of(table: &[u8], key: u32, all: bool) -> Result<Option<Line>, Refusal>
    ensures { result ≡ line_in all table.now key }
{
    match table::look_up(table, key)? {
        Some(track) => Ok(track_line(key, track, all)),
        None => Ok(None),
    }
}

// What the line of a key says where the table holds it; else what that of a new track would say.
pub fn row_in(table: &[u8], key: u32) -> Row
    ensures { result ≡ row_of key (track_or_new (looked_up table.now key)) }
{
    match table::look_up(table, key) {
        Ok(Some(track)) => row::row_of(key, track),
        Ok(None) => row::row_of(key, track::new_track()),
        Err(_) => row::row_of(key, track::new_track()),
    }
}
