// The track of a body, part by part.
ghost use Rattle.std.specs.Prelude.{◌≡◌, ◌+◌, ◌≤◌, min, length};
ghost use Rattle.std.proofs.Math.IntN.{sub_ℕ};
ghost use Rattle.memory.specs.Offsets.{saved_size, body_size};
ghost use Rattle.place.specs.Place.{lowered, count_in, saved_from, saved_at, groups_in, position_in, written_in, track_of};

use counts::{LatitudeCount, LongitudeCount};
use positions::{Counts, Spot};
use track::{Groups, Track};
use whereabouts::{Position, Saved};

// How far up a latitude is held.
const UP: i64 = memory::UP as i64;

// A latitude's number, at most that of the north pole.
fn capped(n: u32) -> u32
    ensures { (result ≡ min n 2147483648) × (result ≤ 2147483648) }
{
    if n <= memory::NORTH { n } else { memory::NORTH }
}

fn lower(n: u32) -> i32
    requires { n ≤ 2147483648 }
    ensures { result ≡ sub_ℕ n 1073741824 }
{
    (n as i64 - UP) as i32
}

// The latitude of its number; one above its range is read as the pole.
#[tactic(auto, unfolding(crate::specs::Place::lowered))]
pub fn latitude_of(n: u32) -> i32
    ensures { result ≡ lowered n }
{
    lower(capped(n))
}

// A count has 17 bits, of which 12 count if it is coarse.
fn count_in(coarse: bool, n: u64) -> u32
    ensures { result ≡ count_in coarse n }
{
    if coarse {
        (n % memory::COARSE_COUNTS) as u32
    } else {
        (n % memory::COUNTS) as u32
    }
}

#[tactic(auto, unfolding(crate::specs::Place::saved_from))]
fn saved_from(n: u64, time: u64) -> Saved
    ensures { result ≡ saved_from n time }
{
    let coarse = n / memory::SAVED_COARSE_MARK % 2 == 1;
    Saved {
        known: n / memory::SAVED_MARK % 2 == 1,
        coarse,
        counts: Counts {
            latitude: LatitudeCount(count_in(coarse, n)),
            longitude: LongitudeCount(count_in(coarse, n / memory::COUNTS)),
        },
        time,
    }
}

fn saved_at(p: &[u8], at: usize) -> Saved
    requires { at + saved_size ≤ length p.now }
    ensures { result ≡ saved_at p.now at }
{
    saved_from(
        memory::get5(p, at),
        memory::get8(p, at + memory::SAVED_TIME),
    )
}

#[tactic(auto, unfolding(crate::specs::Place::groups_in))]
fn groups_in(p: &[u8]) -> Groups
    requires { length p.now ≡ body_size }
    ensures { result ≡ groups_in p.now }
{
    let marks = memory::get4(p, memory::MARKS);
    Groups {
        identification: memory::get7(p, memory::IDENTIFICATION),
        velocity: memory::get7(p, memory::VELOCITY),
        surface: memory::get7(p, memory::SURFACE),
        status: memory::get7(p, memory::STATUS),
        pressure: (marks % memory::CODES) as u16,
        height: (marks / memory::CODES % memory::CODES) as u16,
        typecode: (marks / memory::TYPE_MARK % memory::TYPES) as u8,
        bit8: marks / memory::BIT8_MARK % 2 == 1,
        coarse: marks / memory::COARSE_MARK % 2 == 1,
    }
}

#[tactic(auto, unfolding(crate::specs::Place::position_in))]
fn position_in(p: &[u8]) -> Position
    requires { length p.now ≡ body_size }
    ensures { result ≡ position_in p.now }
{
    let marks = memory::get4(p, memory::MARKS);
    Position {
        known: marks / memory::KNOWN_MARK % 2 == 1,
        spot: Spot {
            latitude: latitude_of(memory::get4(p, memory::LATITUDE)),
            longitude: memory::get4(p, memory::LONGITUDE),
        },
        time: memory::get8(p, memory::TIME),
    }
}

#[tactic(auto, unfolding(crate::specs::Place::written_in))]
fn written_in(p: &[u8]) -> Track
    requires { length p.now ≡ body_size }
    ensures { result ≡ written_in p.now }
{
    Track {
        heard: memory::get8(p, memory::HEARD),
        groups: groups_in(p),
        position: position_in(p),
        saved: [saved_at(p, memory::EVEN), saved_at(p, memory::ODD)],
    }
}

// The track of a body, whatever its bytes.
#[tactic(auto, unfolding(crate::specs::Place::track_of))]
pub fn load(p: &[u8]) -> Track
    requires { length p.now ≡ body_size }
    ensures { result ≡ track_of p.now }
{
    track::meant(written_in(p))
}
