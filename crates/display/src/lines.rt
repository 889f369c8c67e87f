// The lines of the listing.
ghost use Rattle.std.specs.Prelude.{◌≡◌};
ghost use Rattle.refusals.specs.Said.{gives};
ghost use Rattle.entries.specs.Sent.{sent, given, into};
ghost use Rattle.display.specs.Lines.{line_buffer, header_said, line_said};
ghost use Rattle.display.specs.Code.{no_choice};

use text::Line;

// A line's buffer: one byte more than a line has room for, so that it always ends in a zero.
const BUFFER: usize = text::LINE + 1;

fn give_line(out: &mut [u8], line: Line) -> u32
    ensures { sent result out.new ≡ given out.old (gives line.bytes) }
{
    entries::fill_bytes(out, &line.bytes);
    0
}

// What a choice that is neither 0 nor 1 earns: 7 comes before 8.
pub(crate) fn no_choice(table: &[u8]) -> u32
    ensures { result ≡ no_choice table.now }
{
    if table_bytes::whole_places(table.len()) {
        8
    } else {
        7
    }
}

// The listing's first line, of the table as it stands and a number of bad blocks, into 129 bytes: all 0 counts the tracks with a position, 1 all. Or 1, then 7, 8.
pub fn addercoil_header(table: &[u8], bad: u64, all: u32, out: &mut [u8]) -> u32
    ensures { sent result out.new ≡ into line_buffer out.old (header_said all table.now bad) }
{
    if out.len() != BUFFER {
        return 1;
    }
    if 1 < all {
        return no_choice(table);
    }
    match report::header_of(table, bad, all == 1) {
        Ok(line) => give_line(out, line),
        Err(r) => refusals::number(r),
    }
}

// The line of a key, none if it is not held or not shown, into 129 bytes: all 0 shows the tracks with a position, 1 all. Or 1, then 7, 8.
pub fn addercoil_line(table: &[u8], key: u32, all: u32, out: &mut [u8]) -> u32
    ensures { sent result out.new ≡ into line_buffer out.old (line_said all table.now key) }
{
    if out.len() != BUFFER {
        return 1;
    }
    if 1 < all {
        return no_choice(table);
    }
    match report::line_of(table, key, all == 1) {
        Ok(Some(line)) => give_line(out, line),
        Ok(None) => {
            entries::fill_bytes(out, &[]);
            0
        }
        Err(r) => refusals::number(r),
    }
}
