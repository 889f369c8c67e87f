// The whole listing of a lent table in one call. The keys held are gathered once, with their places, and sorted in place, so that each line is written from its place without a search.
#![tactic(auto)]

mod lines;
mod sorted;

ghost use Rattle.std.specs.Prelude.{◌≡◌, ◌-◌, ◌/◌};
ghost use Rattle.memory.specs.Offsets.{head_size, place_size};
ghost use Rattle.whole.specs.Whole.{room_for, left, listed};

use refusals::Refusal;

// How many places bytes of this length have room for, whether they are a table or not.
fn places_of(l: usize) -> usize
    ensures { result ≡ (l - head_size) / place_size }
{
    if l < memory::HEAD {
        return 0;
    }
    (l - memory::HEAD) / memory::PLACE
}

// Whether an array and a buffer have the lengths that a listing of the table is given. The buffer's is divided: a product could be too large.
pub fn has_room(table: &[u8], order: usize, out: usize) -> bool
    ensures { result ≡ room_for table.now order out }
{
    let n = places_of(table.len());
    (order == n) & (out % text::LINE == 0) & (out / text::LINE == n + 1)
}

// The listing, of the table as it stands and a number of bad blocks, with zeros behind it: of all tracks, or of those with a position. Or 1, then 7.
pub fn listing(
    table: &[u8],
    bad: u64,
    all: bool,
    order: &mut [u64],
    out: &mut [u8],
) -> Result<usize, Refusal>
    ensures { left result order.new out.new ≡ listed all table.now bad order.old out.old }
{
    if !has_room(table, order.len(), out.len()) {
        return Err(Refusal::Length);
    }
    if !table_bytes::whole_places(table.len()) {
        return Err(Refusal::Places);
    }
    let n = table_bytes::places_in(table);
    let k = sorted::in_order(table, n, order);
    table_bytes::clear(out);
    Ok(lines::put_listing(table, n, order, k, bad, all, out))
}
