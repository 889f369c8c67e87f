// An ME as numbers in a row, each at its own place, for another language, and a message back from such numbers.
#![tactic(auto)]

mod back;
mod message;
mod widths;

pub use back::message_from;
pub use message::put_me;

// Where the fields begin in a row, and the readings, two entries each; and how many entries it has.
pub const FIELDS: usize = 5;

pub const READINGS: usize = FIELDS + 15;

pub const ROW: usize = READINGS + 8;

// The numbers of the layouts.
pub const LAYOUT_NONE: u64 = 0;

pub const LAYOUT_IDENTIFICATION: u64 = 1;

pub const LAYOUT_SURFACE: u64 = 2;

pub const LAYOUT_AIRBORNE: u64 = 3;

pub const LAYOUT_GROUND: u64 = 4;

pub const LAYOUT_AIR: u64 = 5;

pub const LAYOUT_STATUS: u64 = 6;

pub const LAYOUT_COARSE: u64 = 7;
