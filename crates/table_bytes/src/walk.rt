// The walk of the table in the order of its keys: the smallest key held above a given one. Where none of 8 keys can be it they are passed at once, by wide compares.
ghost use Rattle.std.specs.Prelude.{◌≡◌, ◌+◌, ◌≤◌, ◌<◌, length};
ghost use Rattle.memory.specs.Offsets.{Room};
ghost use Rattle.memory.specs.Bytes.{number_at};
ghost use Rattle.rules.specs.Search.{beats};
ghost use Rattle.table_bytes.specs.Layout.{place_at};
ghost use Rattle.table_bytes.specs.Code.{none_of, better};
ghost use Rattle.table_bytes.specs.Walk.{smallest};

use crate::scan::is_held;
use memory::{HEAD, KEY, get4};

// Whether the key at an offset lies above the given one, and below the best so far, 0 for none.
fn is_better(s: &[u8], at: usize, above: u32, best: u32) -> bool
    requires { at + 4 ≤ length s.now }
    ensures { result ≡ beats above best (number_at 4 s.now at) }
{
    let key = get4(s, at);
    (above < key) & ((best == 0) | (key < best))
}

// The lesser of the best key so far and the place's, if that is held and above.
fn better_of(s: &[u8], n: usize, i: usize, clock: u64, above: u32, best: u32) -> u32
    requires { (i < n) × Room n s.now }
    ensures { result ≡ better clock above best (place_at s.now n i) }
{
    let at = HEAD + KEY * i;
    if is_better(s, at, above, best) && is_held(s, n, i, clock) {
        get4(s, at)
    } else {
        best
    }
}

// The best key so far, after the places up to `to`, which is not among them.
fn best_to(s: &[u8], n: usize, from: usize, to: usize, clock: u64, above: u32, best: u32) -> u32
    requires { (from ≤ to) × (to ≤ n) × Room n s.now × (best ≡ smallest (place_at s.now n) clock above from) }
    ensures { result ≡ smallest (place_at s.now n) clock above to }
{
    let mut best = best;
    for i in from..to {
        best = better_of(s, n, i, clock, above, best);
    }
    best
}

// None of the 8 keys from an offset on is better.
fn none_better_8(s: &[u8], at: usize, above: u32, best: u32) -> bool
    requires { (at < 5000) × (at + 32 ≤ length s.now) }
    ensures { result ≡ none_of (beats above best) 8 s.now at }
{
    !is_better(s, at, above, best)
        & !is_better(s, at + KEY, above, best)
        & !is_better(s, at + 2 * KEY, above, best)
        & !is_better(s, at + 3 * KEY, above, best)
        & !is_better(s, at + 4 * KEY, above, best)
        & !is_better(s, at + 5 * KEY, above, best)
        & !is_better(s, at + 6 * KEY, above, best)
        & !is_better(s, at + 7 * KEY, above, best)
}

pub fn smallest_above(s: &[u8], n: usize, clock: u64, above: u32) -> u32
    requires { Room n s.now }
    ensures { result ≡ smallest (place_at s.now n) clock above n }
{
    let mut best = 0;
    let mut i = 0;
    while i + 8 <= n {
        if !none_better_8(s, HEAD + KEY * i, above, best) {
            best = best_to(s, n, i, i + 8, clock, above, best);
        }
        i += 8;
    }
    best_to(s, n, i, n, clock, above, best)
}
