// The places of a lent slice by value, and what is decided of them: in a set-up, a look and a walk here, and in `arrivals` where a message arrives.
//
// value of a place                       range
// key                                    a key, as `keys` has it
// the four ME of the groups              below 2^56
// the two altitude codes                 below 2^12
// TYPE of the latest position message    below 2^5
// latitude of the position               from -2^30 to 2^30
// counts of the two saved positions      below 2^17, below 2^12 if they are coarse
// all else                               any
//
// A place with any value out of its range is free. An ME whose TYPE is not of its group says 'none heard', and what has no mark is none. A site whose latitude is out of its range counts as none.
#![tactic(auto)]

mod arrivals;
mod ranges;

ghost use Rattle.std.specs.Prelude.{◌≡◌};
ghost use Rattle.slice_places.specs.Ranges.{no_place, meaning_of};
ghost use Rattle.slice_places.specs.Head.{places_fit, site_of};
ghost use Rattle.slice_places.specs.Decided.{sought, not_started, started, better};

pub use arrivals::{Received, Renewal, judge, next_of, sought_by, turned_away};
pub use ranges::{has_key, is_held};
use refusals::Refusal;
use track::Track;
use whereabouts::Site;

// A track and its key; the key 0 is nobody's.
#[derive(Clone, Copy)]
pub struct Place {
    pub key: u32,
    pub track: Track,
}

// What a table has beside its places.
#[derive(Clone, Copy)]
pub struct Head {
    pub clock: u64,
    pub site: Site,
}

// What set-up answers, and the head to go on with: a refusal gives back the one that came in.
#[derive(Clone, Copy)]
pub struct Started {
    pub answer: Result<(), Refusal>,
    pub head: Head,
}

// A key, sought at a clock, and whether a free place is wanted too.
#[derive(Clone, Copy)]
pub struct Sought {
    pub clock: u64,
    pub key: u32,
    pub starts: bool,
}

pub fn no_place() -> Place
    ensures { result ≡ no_place }
{
    Place {
        key: 0,
        track: track::new_track(),
    }
}

#[tactic(auto, unfolding(crate::specs::Head::places_fit))]
pub fn places_fit(n: usize) -> bool
    ensures { result ≡ places_fit n }
{
    (1 <= n) & (n <= memory::MOST_PLACES)
}

#[tactic(auto, unfolding(crate::specs::Head::site_of))]
pub fn site_of(head: Head) -> Site
    ensures { result ≡ site_of head }
{
    let site = head.site;
    if site.known & whereabouts::pole_to_pole(site.spot) {
        site
    } else {
        whereabouts::no_site()
    }
}

pub fn seek(head: Head, key: u32) -> Sought
    ensures { result ≡ sought head.clock key }
{
    Sought {
        clock: head.clock,
        key,
        starts: false,
    }
}

fn not_started(refusal: Refusal, head: Head) -> Started
    ensures { result ≡ not_started refusal head }
{
    Started {
        answer: Err(refusal),
        head,
    }
}

// What is known of a set-up before the slice is touched: 7, then 8, each with the head as it was.
#[tactic(auto, unfolding(crate::specs::Decided::started))]
pub fn start(n: usize, head: Head, site: Site) -> Started
    ensures { result ≡ started n head site }
{
    if !places_fit(n) {
        return not_started(Refusal::Places, head);
    }
    if site.known & !whereabouts::pole_to_pole(site.spot) {
        return not_started(Refusal::Field, head);
    }
    Started {
        answer: Ok(()),
        head: Head { clock: 0, site },
    }
}

pub fn look_at(p: Place) -> Track
    ensures { result ≡ meaning_of p }
{
    track::meant(p.track)
}

// The lesser of the best key so far, 0 for none, and the place's, if that is held and above.
#[tactic(auto, unfolding(rules::specs::Search::better))]
pub fn better_of(best: u32, p: Place, s: Sought) -> u32
    ensures { result ≡ better s.clock s.key best p }
{
    let key = p.key;
    if (s.key < key) & ((best == 0) | (key < best)) && ranges::is_held(s.clock, p) {
        key
    } else {
        best
    }
}
