// The whole listing.
ghost use Rattle.std.specs.Prelude.{◌≡◌, length};
ghost use Rattle.display.specs.Handed.{handed, listing_into};
ghost use Rattle.display.specs.Code.{no_listing};

use crate::lines::no_choice;

// What a choice that is neither 0 nor 1 earns: 1 and 7 come before 8.
fn unlisted(table: &[u8], order: usize, out: usize) -> u32
    ensures { result ≡ no_listing table.now order out }
{
    if whole::has_room(table, order, out) {
        no_choice(table)
    } else {
        1
    }
}

// The listing, of the table as it stands and a number of bad blocks, with zeros behind the text, and how many bytes the text has: all 0 shows the tracks with a position, 1 all. The keys are sorted in `order`. Or 1, then 7, 8.
pub fn addercoil_listing(
    table: &[u8],
    bad: u64,
    all: u32,
    order: &mut [u64],
    out: &mut [u8],
    written: &mut [u64],
) -> u32
    ensures { handed result order.new out.new written.new ≡ listing_into all table.now bad order.old out.old written.old }
{
    if written.len() != 1 {
        return 1;
    }
    if 1 < all {
        return unlisted(table, order.len(), out.len());
    }
    let listed = whole::listing(table, bad, all == 1, order, out);
    match listed {
        Ok(n) => {
            written[0] = n as u64;
            0
        }
        Err(r) => refusals::number(r),
    }
}
