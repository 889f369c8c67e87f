// The body of a track, part by part. What does not fit its bits is cut.
ghost use Rattle.std.specs.Prelude.{◌≡◌, ◌+◌, ◌≤◌, length};
ghost use Rattle.memory.specs.Offsets.{saved_size, body_size};
ghost use Rattle.memory.specs.Code.{messages_size, spot_size};
ghost use Rattle.memory.specs.Bytes.{put};
ghost use Rattle.place.specs.Place.{bit, above_pole, marks_of, saved_number, saved_bytes, message_bytes, spot_bytes, body_of};

use track::{Groups, Track};
use whereabouts::{Position, Saved};

// How many values a code, a TYPE and a count have, as wide as they are.
const CODES: u16 = memory::CODES as u16;

const TYPES: u8 = memory::TYPES as u8;

const COUNTS: u32 = memory::COUNTS as u32;

// How far up a latitude is held, and 2^32, which cuts it to its four bytes.
const UP: u64 = memory::UP as u64;

const TURN: u64 = 0x1_0000_0000;

// How far a latitude lies above the south pole, 2^32 up, so that no number is below 0.
pub fn above_pole(latitude: i32) -> u64
    ensures { result ≡ above_pole latitude }
{
    signs::raise(latitude) + UP
}

fn marks_of(g: Groups, known: bool) -> u32
    ensures { result ≡ marks_of g known }
{
    u32::from(g.pressure % CODES)
        + u32::from(g.height % CODES) * memory::CODES
        + u32::from(known) * memory::KNOWN_MARK
        + u32::from(g.typecode % TYPES) * memory::TYPE_MARK
        + u32::from(g.bit8) * memory::BIT8_MARK
        + u32::from(g.coarse) * memory::COARSE_MARK
}

fn saved_number(v: Saved) -> u64
    ensures { result ≡ saved_number v }
{
    u64::from(v.counts.latitude.0 % COUNTS)
        + u64::from(v.counts.longitude.0 % COUNTS) * memory::COUNTS
        + u64::from(v.known) * memory::SAVED_MARK
        + u64::from(v.coarse) * memory::SAVED_COARSE_MARK
}

fn put_saved(s: &mut [u8], at: usize, v: Saved)
    requires { at + saved_size ≤ length s.old }
    ensures { s.new ≡ put s.old at (saved_bytes v) }
{
    memory::put5(s, at, saved_number(v));
    memory::put8(s, at + memory::SAVED_TIME, v.time);
}

// All but the last are stored with a byte more, which the next one writes: each is a single store.
fn put_messages(s: &mut [u8], at: usize, g: Groups)
    requires { at + messages_size ≤ length s.old }
    ensures { s.new ≡ put s.old at (message_bytes g) }
{
    memory::put8(s, at, g.identification);
    memory::put8(s, at + memory::TO_VELOCITY, g.velocity);
    memory::put8(s, at + memory::TO_SURFACE, g.surface);
    memory::put7(s, at + memory::TO_STATUS, g.status);
}

fn put_spot(s: &mut [u8], at: usize, p: Position)
    requires { at + spot_size ≤ length s.old }
    ensures { s.new ≡ put s.old at (spot_bytes p) }
{
    memory::put4(s, at, (above_pole(p.spot.latitude) % TURN) as u32);
    memory::put4(s, at + memory::TO_LONGITUDE, p.spot.longitude);
    memory::put8(s, at + memory::TO_TIME, p.time);
}

// A track's body at an offset.
pub fn store(s: &mut [u8], at: usize, t: Track)
    requires { at + body_size ≤ length s.old }
    ensures { s.new ≡ put s.old at (body_of t) }
{
    let [even, odd] = t.saved;
    let g = t.groups;
    let p = t.position;
    memory::put8(s, at, t.heard);
    put_messages(s, at + memory::IDENTIFICATION, g);
    memory::put4(s, at + memory::MARKS, marks_of(g, p.known));
    put_spot(s, at + memory::LATITUDE, p);
    put_saved(s, at + memory::EVEN, even);
    put_saved(s, at + memory::ODD, odd);
}
