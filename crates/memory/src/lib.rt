// The memory map of a lent table: a head, a column of keys, then a body for each place. Numbers are low byte first: `words` reads and writes them, and `held` says by them when a place is held.
// Each offset is that of the thing before it and its width, so that what is put in between moves all behind it. A value has any number that its bytes can hold, unless a range is named.
#![tactic(auto)]

mod held;
mod words;

pub use held::is_held;
pub use words::{get4, get5, get7, get8, put4, put5, put7, put8};

// ---- the head

// The clock.
pub const CLOCK: usize = 0;

// The site's latitude plus 2^30 + 1, 0 if there is no site: 0 to 2^31 + 1. A number out of its range says that there is none.
pub const SITE_LATITUDE: usize = CLOCK + 8;

// The site's longitude.
pub const SITE_LONGITUDE: usize = SITE_LATITUDE + 4;

pub const HEAD: usize = SITE_LONGITUDE + 4;

// ---- a body, which is one track. Bits that no value has are ignored when read, and 0 when written

// When last heard.
pub const HEARD: usize = 0;

// The ME that gave the identification, 0 if none.
pub const IDENTIFICATION: usize = HEARD + 8;

// The ME that gave the velocity, 0 if none.
pub const VELOCITY: usize = IDENTIFICATION + 7;

// The ME that gave the surface fields, 0 if none.
pub const SURFACE: usize = VELOCITY + 7;

// The ME that gave the status, 0 if none.
pub const STATUS: usize = SURFACE + 7;

// Bits 0-11 the pressure altitude code, bits 12-23 the GNSS height code, bit 24 whether the position is known; of the latest position message bits 25-29 TYPE, 0 if none was heard, and bit 30 bit 8 of ME;
// bit 31 whether the ME that gave the velocity is a coarse message's.
pub const MARKS: usize = STATUS + 7;

// How many codes 12 bits have, which is also the place of the second code.
pub const CODES: u32 = 0x1000;

// Bits 24, 25, 30 and 31 of the marks, and how many TYPEs there are.
pub const KNOWN_MARK: u32 = 0x100_0000;

pub const TYPE_MARK: u32 = 0x200_0000;

pub const TYPES: u32 = 32;

pub const BIT8_MARK: u32 = 0x4000_0000;

pub const COARSE_MARK: u32 = 0x8000_0000;

// The latitude of the position plus 2^30: 0 to 2^31. With a number out of its range the place is free.
pub const LATITUDE: usize = MARKS + 4;

// How far up a latitude is held, and the number of the north pole.
pub const UP: u32 = 0x4000_0000;

pub const NORTH: u32 = 0x8000_0000;

// The longitude of the position.
pub const LONGITUDE: usize = LATITUDE + 4;

// The time of the position.
pub const TIME: usize = LONGITUDE + 4;

// The even encoded position.
pub const EVEN: usize = TIME + 8;

// The odd one.
pub const ODD: usize = EVEN + SAVED;

pub const BODY: usize = ODD + SAVED;

// From the first ME to the others, and from the latitude to what belongs to it.
pub const TO_VELOCITY: usize = VELOCITY - IDENTIFICATION;

pub const TO_SURFACE: usize = SURFACE - IDENTIFICATION;

pub const TO_STATUS: usize = STATUS - IDENTIFICATION;

pub const TO_LONGITUDE: usize = LONGITUDE - LATITUDE;

pub const TO_TIME: usize = TIME - LATITUDE;

// An encoded position: bits 0-16 the latitude count, bits 17-33 the longitude count, bit 34 whether there is one, bit 35 whether it is coarse; then its time.
pub const SAVED_TIME: usize = 5;

// How many counts 17 bits have, which is also the place of the second count; of a coarse position 12 bits count.
pub const COUNTS: u64 = 0x2_0000;

pub const COARSE_COUNTS: u64 = 0x1000;

// Bits 34 and 35 of an encoded position.
pub const SAVED_MARK: u64 = 0x4_0000_0000;

pub const SAVED_COARSE_MARK: u64 = 0x8_0000_0000;

pub const SAVED: usize = SAVED_TIME + 8;

// ---- the places

// A key, as `keys` has it. With a number that is none the place is free.
pub const KEY: usize = 4;

pub const PLACE: usize = KEY + BODY;

pub const MOST_PLACES: usize = 1024;

// The bytes of a table of one place, and of the most.
pub const LEAST: usize = HEAD + PLACE;

pub const MOST: usize = HEAD + PLACE * MOST_PLACES;
