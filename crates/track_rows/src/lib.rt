// A track as numbers in a row, each at its own place, for another language; one that was asked for handed out so.
#![tactic(auto)]

mod held;
mod shown;
mod standard;
mod tracks;

pub use held::give_held;
pub use tracks::track_values;

// How many entries a track has: as it is kept, of what people are shown, and of its integrity; and in all.
pub const KEPT: usize = 30;

pub const SHOWN: usize = 36;

pub const STANDARD: usize = 6;

pub const TRACK: usize = KEPT + SHOWN + STANDARD;
