// The blocks of a capture.
ghost use Rattle.std.specs.Prelude.{◌≡◌, cond, not, eqb, length};
ghost use Rattle.feed.specs.Feed.{fed_block};
ghost use Rattle.entries.specs.Sent.{sent, given};
ghost use Rattle.addercoil.specs.Blocks.{both, fed_said, fed_into};

use entries::give;
use refusals::Refusal;

fn give_fed(out: &mut [u64], answer: Result<u64, Refusal>) -> u32
    ensures { sent result out.new ≡ given out.old (fed_said answer) }
{
    match answer {
        Ok(n) => give(out, &[n]),
        Err(r) => refusals::number(r),
    }
}

// One block of a capture, with the count of bad blocks so far: that count after it, into 1 entry. Or 1, then 7.
pub fn addercoil_feed_block(table: &mut [u8], block: &[u8], bad: u64, out: &mut [u64]) -> u32
    ensures { both (sent result out.new) table.new ≡ cond (not (eqb (length out.old) 1)) (both (sent 1 out.old) table.old) (fed_into out.old (fed_block table.old block.now bad)) }
{
    if out.len() != 1 {
        return 1;
    }
    give_fed(out, feed::feed_block(table, block, bad))
}
