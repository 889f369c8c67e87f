// Three numbers of a position that are never mixed: each is a type of its own, so none is accepted where another is due.
#![tactic(auto)]

// How far into its zone a latitude lies, in 2^-17 of the zone; of a coarse message in 2^-12.
#[derive(Clone, Copy, Debug, PartialEq, Eq)]
pub struct LatitudeCount(pub u32);

// How far into its zone a longitude lies, in 2^-17 of the zone; of a coarse message in 2^-12.
#[derive(Clone, Copy, Debug, PartialEq, Eq)]
pub struct LongitudeCount(pub u32);

// Which zone, of those that a turn is cut into.
#[derive(Clone, Copy, Debug, PartialEq, Eq)]
pub struct Zone(pub u32);
