// Addercoil for C, the functions that show what a table holds: a track as numbers, the lines of the listing, and the listing as a whole. They are an object of their own in the archive: a place is read in one function of each, and `addercoil_receive` does not pay for a call.
#![tactic(auto)]

pub mod lines;
pub mod listing;
pub mod tracks;
