// What is read and written in the head, the keys and the bodies of a table.
ghost use Rattle.std.specs.Prelude.{◌≡◌, ◌+◌, ◌%◌, ◌≤◌, ◌<◌, true, ◌++◌, length};
ghost use Rattle.memory.specs.Offsets.{site_latitude_at, head_size, body_size, Room, whole_places, places_in};
ghost use Rattle.positions.specs.Positions.{pole_to_pole};
ghost use Rattle.memory.specs.Bytes.{low_bytes, put};
ghost use Rattle.place.specs.Place.{above_pole};
ghost use Rattle.table_bytes.specs.Layout.{clock_of, site_from, site_of, body_at, moved, stored, emptied};

use memory::{BODY, CLOCK, HEAD, KEY, LEAST, MOST, PLACE, SITE_LATITUDE, SITE_LONGITUDE};
use positions::Spot;
use track::Track;
use whereabouts::Site;

#[tactic(auto, unfolding(memory::specs::Offsets::whole_places))]
pub fn whole_places(l: usize) -> bool
    ensures { result ≡ whole_places l }
{
    (LEAST <= l) & (l <= MOST) & (l % PLACE == HEAD)
}

pub fn places_in(s: &[u8]) -> usize
    requires { whole_places (length s.now) ≡ true }
    ensures { (result ≡ places_in s.now) × Room result s.now }
{
    (s.len() - HEAD) / PLACE
}

// The body of the place i of n.
pub fn body(s: &[u8], n: usize, i: usize) -> &[u8]
    requires { (i < n) × Room n s.now }
    ensures { (result.now ≡ body_at s.now n i) × (length result.now ≡ body_size) }
{
    let at = HEAD + KEY * n + BODY * i;
    &s[at..at + BODY]
}

pub fn clock_of(s: &[u8]) -> u64
    requires { head_size ≤ length s.now }
    ensures { result ≡ clock_of s.now }
{
    memory::get8(s, CLOCK)
}

// The clock moves, and nothing else.
#[tactic(auto, unfolding(crate::specs::Layout::moved))]
pub fn move_clock(s: &mut [u8], time: u64)
    requires { head_size ≤ length s.old }
    ensures { s.new ≡ moved s.old time }
{
    memory::put8(s, CLOCK, time);
}

#[tactic(auto, unfolding(crate::specs::Layout::site_from))]
fn site_from(n: u32, longitude: u32) -> Site
    ensures { result ≡ site_from n longitude }
{
    if (1 <= n) & (n <= 2147483649) {
        Site {
            known: true,
            spot: Spot {
                latitude: place::latitude_of(n - 1),
                longitude,
            },
        }
    } else {
        whereabouts::no_site()
    }
}

pub fn site_of(s: &[u8]) -> Site
    requires { head_size ≤ length s.now }
    ensures { result ≡ site_of s.now }
{
    site_from(
        memory::get4(s, SITE_LATITUDE),
        memory::get4(s, SITE_LONGITUDE),
    )
}

// A track and its key at the place i of n.
#[tactic(auto, unfolding(crate::specs::Layout::stored))]
pub fn store(s: &mut [u8], n: usize, i: usize, key: u32, t: Track)
    requires { (i < n) × Room n s.old }
    ensures { s.new ≡ stored s.old n i key t }
{
    memory::put4(s, HEAD + KEY * i, key);
    place::store(s, HEAD + KEY * n + BODY * i, t);
}

#[tactic(auto, unfolding(crate::specs::Layout::emptied))]
pub fn clear(s: &mut [u8])
    ensures { s.new ≡ emptied s.old }
{
    s.fill(0);
}

pub fn put_site(s: &mut [u8], site: Spot)
    requires { (head_size ≤ length s.old) × (pole_to_pole site.latitude ≡ true) }
    ensures { s.new ≡ put s.old site_latitude_at (low_bytes 4 (above_pole site.latitude % 4294967296 + 1) ++ low_bytes 4 site.longitude) }
{
    memory::put4(
        s,
        SITE_LATITUDE,
        (place::above_pole(site.latitude) % 4294967296) as u32 + 1,
    );
    memory::put4(s, SITE_LONGITUDE, site.longitude);
}
