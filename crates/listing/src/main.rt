// Reads a capture on standard input to its end and prints the listing: 256 places, no site. The word `all` asks for every track, no word for those with a position. It keeps one block at a time, so that memory does not grow with the capture.
#![tactic(auto)]

mod words;

ghost use Rattle.std.specs.Prelude.{◌≡◌, IfOk, length};
ghost use Rattle.memory.specs.Offsets.{table_size};
ghost use Rattle.table_bytes.specs.Layout.{emptied};
ghost use Rattle.listing.specs.Code.{SomeFed};

use std::io::{self, Read};
use words::Asked;

const PLACES: usize = 256;

// The bytes of its table, and of its listing.
const TABLE: usize = memory::HEAD + memory::PLACE * PLACES;

const TEXT: usize = text::LINE * (PLACES + 1);

// Feeds the input, block by block, to an empty table, and counts the bad blocks. A short block is the end.
// A proved loop has to end, and nothing says that the input does. So the loop counts its turns down, from a number that no run uses up.
fn read_all<R: Read>(reader: &mut R, table: &mut [u8], block: &mut [u8]) -> io::Result<u64>
    requires { (length table.old ≡ table_size 256) × (length block.old ≡ 512) }
    ensures { IfOk result (λ bad. SomeFed (emptied table.old) bad table.new) }
{
    let _ = table::set_up(table);
    let mut bad: u64 = 0;
    let mut turns: u64 = 0xffff_ffff_ffff_ffff;
    while turns > 0 {
        let n = streams::read_full(reader, block)?;
        if n == 0 {
            return Ok(bad);
        }
        let Ok(next) = feed::feed_block(table, &block[..n], bad) else {
            return Ok(bad);
        };
        bad = next;
        if n < 512 {
            return Ok(bad);
        }
        turns -= 1;
    }
    Ok(bad)
}

// Whether the input has come to its end: a read that fails says nothing, and there may be more bytes.
fn input_ended(reader: &mut impl Read) -> bool {
    let mut more = [0u8; 1];
    matches!(reader.read(&mut more), Ok(0))
}

// The first n bytes, and whether they were written. The test costs less than a proof that it holds.
fn print_first(rt: &impl Print, text: &[u8], n: usize) -> bool {
    if n <= text.len() {
        return rt.write_all(&text[..n]).is_ok();
    }
    true
}

// The whole listing, and whether it was written. The arrays have the lengths that a table of 256 places asks for, so that it is never refused.
fn print_listing(rt: &impl Print, table: &[u8], bad: u64, all: bool) -> bool {
    let mut order = [0u64; PLACES];
    let mut out = [0u8; TEXT];
    let Ok(n) = whole::listing(table, bad, all, &mut order, &mut out) else {
        return false;
    };
    print_first(rt, &out, n)
}

// What was not done. Where that cannot be said either, nobody is left to hear it.
fn complain(rt: &impl Eprint, text: &str) {
    let _ = rt.eprintln(text);
}

fn run(rt: &(impl Input + Print + Eprint), all: bool) {
    let mut table = [0u8; TABLE];
    let mut block = [0u8; 512];
    let mut reader = rt.reader();
    match read_all(&mut reader, &mut table, &mut block) {
        Ok(bad) if input_ended(&mut reader) => {
            if !print_listing(rt, &table, bad, all) {
                complain(rt, "listing: the output cannot be written");
            }
        }
        _ => complain(rt, "listing: the input cannot be read to its end"),
    }
}

fn main(rt: HostRuntime) {
    let asked = words::read_words(&rt);
    match asked {
        Asked::Positioned => run(&rt, false),
        Asked::All => run(&rt, true),
        Asked::Unclear => complain(&rt, "usage: listing [all]"),
    }
}
