// One turn of the scan, and what is made of what it found, by value: the loop only reads and calls.
ghost use Rattle.std.specs.Prelude.{◌≡◌, ◌<◌};
ghost use Rattle.slice_table.specs.Code.{further, visited, chosen};

use crate::Found;
use slice_places::{Place, Sought};

// The lowest number so far, or else the next one if it passes.
fn farther(best: usize, i: usize, passes: bool) -> usize
    requires { i < 9223372036854775808 }
    ensures { result ≡ further best i passes }
{
    if best < i {
        return best;
    }
    if passes { i } else { i + 1 }
}

// One place of the scan.
#[tactic(auto, unfolding(crate::specs::Code::visited))]
pub(crate) fn visit(found: Found, p: Place, i: usize, s: Sought) -> Found
    requires { i < 9223372036854775808 }
    ensures { result ≡ visited found p i s }
{
    Found {
        own: farther(found.own, i, slice_places::has_key(s.clock, s.key, p)),
        free: farther(found.free, i, s.starts & !slice_places::is_held(s.clock, p)),
    }
}

// The place of the key, or else a free one.
pub(crate) fn choose(found: Found, n: usize) -> usize
    ensures { result ≡ chosen found n }
{
    if found.own < n { found.own } else { found.free }
}
