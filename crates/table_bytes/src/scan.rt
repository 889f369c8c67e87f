// The place of a key, and the lowest free place. The column of keys is passed 16 at a time, which compiles to wide compares.
ghost use Rattle.std.specs.Prelude.{◌≡◌, true, false, not, ◌&&◌, ℕ, ◌+◌, ◌≤◌, ◌<◌, eqb, length};
ghost use Rattle.memory.specs.Offsets.{Room};
ghost use Rattle.table_bytes.specs.Layout.{place_at, is_held, holds};
ghost use Rattle.table_bytes.specs.Scan.{lowest, is_first, target_of};
ghost use Rattle.table_bytes.specs.Code.{none_of, NoneBelow, all_held};

use crate::layout;
use memory::{HEAD, KEY, get4};

// A place, and whether it holds the key: both beside each other, so that one test of the place serves a held one and a free one.
#[derive(Clone, Copy)]
pub struct Target {
    pub held: bool,
    pub at: usize,
}

// None of the 8 keys from an offset on is the key. It stands written out, as do the others of 4 and 8, so that it compiles to wide compares.
fn none_of_8(s: &[u8], at: usize, key: u32) -> bool
    requires { (at < 5000) × (at + 32 ≤ length s.now) }
    ensures { result ≡ none_of (λ k. eqb k key) 8 s.now at }
{
    (get4(s, at) != key)
        & (get4(s, at + KEY) != key)
        & (get4(s, at + 2 * KEY) != key)
        & (get4(s, at + 3 * KEY) != key)
        & (get4(s, at + 4 * KEY) != key)
        & (get4(s, at + 5 * KEY) != key)
        & (get4(s, at + 6 * KEY) != key)
        & (get4(s, at + 7 * KEY) != key)
}

// .. and of the first 4.
fn none_of_4(s: &[u8], at: usize, key: u32) -> bool
    requires { (at < 5000) × (at + 16 ≤ length s.now) }
    ensures { result ≡ none_of (λ k. eqb k key) 4 s.now at }
{
    (get4(s, at) != key)
        & (get4(s, at + KEY) != key)
        & (get4(s, at + 2 * KEY) != key)
        & (get4(s, at + 3 * KEY) != key)
}

// 8 places are passed if none of them has the key.
fn past_8(s: &[u8], n: usize, from: usize, key: u32) -> usize
    requires { (from + 8 ≤ n) × Room n s.now × NoneBelow s.now key from }
    ensures { (result ≤ from + 8) × NoneBelow s.now key result }
{
    if none_of_8(s, HEAD + KEY * from, key) {
        return from + 8;
    }
    from
}

// .. and 4.
fn past_4(s: &[u8], n: usize, from: usize, key: u32) -> usize
    requires { (from + 4 ≤ n) × Room n s.now × NoneBelow s.now key from }
    ensures { (result ≤ from + 4) × NoneBelow s.now key result }
{
    if none_of_4(s, HEAD + KEY * from, key) {
        return from + 4;
    }
    from
}

// How many places can be passed, 16 at a time, before one with the key; of those 16 the first 8 or 12 too.
fn skip(s: &[u8], n: usize, key: u32) -> usize
    requires { Room n s.now }
    ensures { (result ≤ n) × NoneBelow s.now key result }
{
    let mut i = 0;
    while i + 16 <= n {
        let at = HEAD + KEY * i;
        if !(none_of_8(s, at, key) & none_of_8(s, at + 32, key)) {
            return past_4(s, n, past_8(s, n, i, key), key);
        }
        i += 16;
    }
    i
}

pub(crate) fn is_held(s: &[u8], n: usize, i: usize, clock: u64) -> bool
    requires { (i < n) × Room n s.now }
    ensures { result ≡ is_held clock (place_at s.now n i) }
{
    memory::is_held(clock, get4(s, HEAD + KEY * i), layout::body(s, n, i))
}

// Ranges and age are tested only where the key is equal.
fn has_key(s: &[u8], n: usize, i: usize, clock: u64, key: u32) -> bool
    requires { (i < n) × Room n s.now }
    ensures { result ≡ holds clock key (place_at s.now n i) }
{
    get4(s, HEAD + KEY * i) == key && memory::is_held(clock, key, layout::body(s, n, i))
}

pub fn find_key(s: &[u8], n: usize, clock: u64, key: u32) -> usize
    requires { Room n s.now }
    ensures { result ≡ lowest (λ i. holds clock key (place_at s.now n i)) n }
{
    for i in skip(s, n, key)..n {
        if has_key(s, n, i, clock, key) {
            return i;
        }
    }
    n
}

// Whether the place is the first of its key. Only where it is held is its key looked for: a free one's may stand at many.
pub fn is_first(s: &[u8], n: usize, i: usize, clock: u64) -> bool
    requires { (i < n) × Room n s.now }
    ensures { result ≡ is_first (place_at s.now n) n clock i }
{
    is_held(s, n, i, clock) && find_key(s, n, clock, get4(s, HEAD + KEY * i)) == i
}

// Whether each of the 4 places from i on is held.
fn held_4(s: &[u8], n: usize, i: usize, clock: u64) -> bool
    requires { (i + 4 ≤ n) × Room n s.now }
    ensures { result ≡ all_held 4 (place_at s.now n) i clock }
{
    is_held(s, n, i, clock)
        & is_held(s, n, i + 1, clock)
        & is_held(s, n, i + 2, clock)
        & is_held(s, n, i + 3, clock)
}

// How many places can be passed, 8 at a time, before 8 of which one is free, or fewer than 8.
fn skip_held(s: &[u8], n: usize, clock: u64) -> usize
    requires { Room n s.now }
    ensures { (result ≤ n) × (((i : ℕ) → i < result → is_held clock (place_at s.now n i) ≡ true) × (result + 8 ≤ n → all_held 4 (place_at s.now n) result clock && all_held 4 (place_at s.now n) (result + 4) clock ≡ false)) }
{
    let mut i = 0;
    while i + 8 <= n {
        if !(held_4(s, n, i, clock) & held_4(s, n, i + 4, clock)) {
            return i;
        }
        i += 8;
    }
    i
}

fn find_free(s: &[u8], n: usize, clock: u64) -> usize
    requires { Room n s.now }
    ensures { result ≡ lowest (λ i. not (is_held clock (place_at s.now n i))) n }
{
    for i in skip_held(s, n, clock)..n {
        if !is_held(s, n, i, clock) {
            return i;
        }
    }
    n // none is free
}

// Where a message of the key goes: to its place, which is then held, else to the lowest free one.
pub fn target_of(s: &[u8], n: usize, clock: u64, key: u32) -> Target
    requires { Room n s.now }
    ensures { result ≡ target_of (place_at s.now n) n clock key }
{
    let i = find_key(s, n, clock, key);
    if i < n {
        return Target { held: true, at: i };
    }
    Target {
        held: false,
        at: find_free(s, n, clock),
    }
}
