// The bytes that a user lends: what is read and written at the offsets that `memory` names, and the search among them. A track is held while it is in date, which is read by the clock: nothing sweeps.
#![tactic(auto)]

mod layout;
mod scan;
mod walk;

pub use layout::{
    body, clear, clock_of, move_clock, places_in, put_site, site_of, store, whole_places,
};
pub use scan::{Target, find_key, is_first, target_of};
pub use walk::smallest_above;
