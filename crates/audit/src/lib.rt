// Addercoil for C, the functions by which what it says is checked, without a table. They are an object of their own in the archive: the track's step has one caller in each, and stays in its place.
#![tactic(auto)]

pub mod replays;
