// The lent table as a slice of places, 1 to 1,024 of them, with its head by value. The calls are those of the bytes form, and both answer the same.
// A place is a struct of `slice_places`, where the range of each of its values stands, and all that is decided of one.
// The functions below are thin: they read, call by value and store.
#![tactic(auto)]

mod search;

ghost use Rattle.std.specs.Prelude.{◌≡◌, length};
ghost use Rattle.slice_table.specs.Tracks.{after, emptied, set_up, received, looked_up, next_above};
ghost use Rattle.slice_table.specs.Code.{delivered, smallest, scanned};

use refusals::Refusal;
use slice_places::Sought;
pub use slice_places::{Head, Place, Received, Started};
use track::Track;
use whereabouts::Site;

// The lowest place held with the key and the lowest free one, each the number of places if there is none: so one comparison both tests and bounds it.
#[derive(Clone, Copy)]
pub(crate) struct Found {
    pub own: usize,
    pub free: usize,
}

// The place of a key, and the lowest free one.
fn scan(places: &[Place], s: Sought) -> Found
    ensures { result ≡ scanned places.now s (length places.now) }
{
    let mut found = Found { own: 0, free: 0 };
    for (i, p) in places.iter().enumerate() {
        found = search::visit(found, *p, i, s);
    }
    found
}

fn clear(places: &mut [Place])
    ensures { places.new ≡ emptied places.old }
{
    places.fill(slice_places::no_place());
}

// Empties the places, and takes the site if it is known. A refusal leaves the places and the head as they were.
pub fn set_up(places: &mut [Place], head: Head, site: Site) -> Started
    ensures { after result.answer result.head places.new ≡ set_up places.old head site }
{
    let s = slice_places::start(places.len(), head, site);
    if s.answer.is_ok() {
        clear(places);
    }
    s
}

// What is due reaches the places: a message's track is stepped where it is, or where there is room.
fn deliver(places: &mut [Place], due: Received) -> Received
    ensures { after result.answer result.head places.new ≡ delivered places.old due.head due.answer }
{
    if due.answer.is_err() {
        return due;
    }
    let i = search::choose(scan(places, slice_places::sought_by(due)), places.len());
    if i < places.len() {
        let next = slice_places::next_of(due, places[i]);
        places[i] = next.place;
        return next.received;
    }
    slice_places::turned_away(due)
}

// What a message received at a time does to the table: the decoded message, or the number that it earns.
pub fn receive(places: &mut [Place], head: Head, message: &[u8], time: u64) -> Received
    ensures { after result.answer result.head places.new ≡ received places.old head message.now time }
{
    let due = slice_places::judge(places.len(), head, message, time);
    deliver(places, due)
}

// The track of a key.
pub fn look_up(places: &[Place], head: Head, key: u32) -> Result<Option<Track>, Refusal>
    ensures { result ≡ looked_up places.now head key }
{
    if !slice_places::places_fit(places.len()) {
        return Err(Refusal::Places);
    }
    let i = scan(places, slice_places::seek(head, key)).own;
    if i < places.len() {
        Ok(Some(slice_places::look_at(places[i])))
    } else {
        Ok(None)
    }
}

fn smallest_above(places: &[Place], s: Sought) -> u32
    ensures { result ≡ smallest places.now s.clock s.key (length places.now) }
{
    let mut best = 0;
    for p in places {
        best = slice_places::better_of(best, *p, s);
    }
    best
}

// The smallest key held above a given one: from 0 on, this walks the places in the order of their keys.
pub fn next(places: &[Place], head: Head, above: u32) -> Result<Option<u32>, Refusal>
    ensures { result ≡ next_above places.now head above }
{
    if !slice_places::places_fit(places.len()) {
        return Err(Refusal::Places);
    }
    Ok(rules::key_or_end(smallest_above(places, slice_places::seek(head, above))))
}
