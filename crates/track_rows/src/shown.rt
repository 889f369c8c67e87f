// What people are shown of a track: entries of the rows of the MEs that it keeps.
ghost use Rattle.std.specs.Prelude.{◌≡◌};
ghost use Rattle.track_rows.specs.Shown.{row_in, named, source, moving, on_ground, taxiing, going, shown};

use crate::SHOWN;
use keys::Kind;
use rows::{ROW, put_me};
use track::Track;

// The readings of a row, each by what it is and its value.
const FIRST: usize = rows::READINGS;

const FIRST_VALUE: usize = FIRST + 1;

const SECOND: usize = FIRST + 2;

const SECOND_VALUE: usize = SECOND + 1;

const THIRD: usize = SECOND + 2;

const THIRD_VALUE: usize = THIRD + 1;

const FOURTH: usize = THIRD + 2;

const FOURTH_VALUE: usize = FOURTH + 1;

// Fields of a row, counted from 0 in the order of their bits.
const FIELD_1: usize = rows::FIELDS + 1;

const FIELD_2: usize = rows::FIELDS + 2;

const FIELD_4: usize = rows::FIELDS + 4;

const FIELD_5: usize = rows::FIELDS + 5;

const FIELD_7: usize = rows::FIELDS + 7;

const FIELD_9: usize = rows::FIELDS + 9;

fn row_in(coarse: bool, traffic: bool, me: u64) -> [u64; ROW]
    ensures { result ≡ row_in coarse traffic me }
{
    let mut row = [0; ROW];
    put_me(&mut row, layouts::layout_by(coarse, me), me, traffic);
    row
}

// Callsign, category set, category.
#[tactic(auto, unfolding(crate::specs::Shown::named))]
fn named_by(row: [u64; ROW]) -> [u64; 6]
    ensures { result ≡ named row }
{
    if row[0] == rows::LAYOUT_IDENTIFICATION {
        return [
            row[SECOND],
            row[SECOND_VALUE],
            row[FIRST],
            row[FIRST_VALUE],
            1,
            row[FIELD_1],
        ];
    }
    [0; 6]
}

// The source of a vertical rate, which a traffic service does not send.
#[tactic(auto, unfolding(crate::specs::Shown::source))]
fn source_by(traffic: bool, row: [u64; ROW]) -> [u64; 2]
    ensures { result ≡ source traffic row }
{
    if traffic {
        return [0; 2];
    }
    [1, row[FIELD_9]]
}

// Speed to the east, to the north; heading, its status, airspeed, its kind; vertical rate, its source.
#[tactic(auto, unfolding(crate::specs::Shown::moving))]
fn moving_by(traffic: bool, row: [u64; ROW]) -> [u64; 16]
    ensures { result ≡ moving traffic row }
{
    let s = source_by(traffic, row);
    if row[0] == rows::LAYOUT_GROUND {
        return [
            row[FIRST],
            row[FIRST_VALUE],
            row[SECOND],
            row[SECOND_VALUE],
            0,
            0,
            0,
            0,
            0,
            0,
            0,
            0,
            row[THIRD],
            row[THIRD_VALUE],
            s[0],
            s[1],
        ];
    }
    if row[0] == rows::LAYOUT_AIR {
        return [
            0,
            0,
            0,
            0,
            row[FIRST],
            row[FIRST_VALUE],
            1,
            row[FIELD_5],
            row[SECOND],
            row[SECOND_VALUE],
            1,
            row[FIELD_7],
            row[THIRD],
            row[THIRD_VALUE],
            s[0],
            s[1],
        ];
    }
    [0; 16]
}

// Whether the last position message came from the ground.
#[tactic(auto, unfolding(crate::specs::Shown::on_ground))]
fn ground_by(encoded: bool, row: [u64; ROW]) -> [u64; 2]
    ensures { result ≡ on_ground encoded row }
{
    if encoded {
        return [1, 0];
    }
    if row[0] == rows::LAYOUT_SURFACE {
        return [1, 1];
    }
    [0; 2]
}

// Movement, heading, its status.
#[tactic(auto, unfolding(crate::specs::Shown::taxiing))]
fn taxiing_by(row: [u64; ROW]) -> [u64; 6]
    ensures { result ≡ taxiing row }
{
    if row[0] == rows::LAYOUT_SURFACE {
        return [
            row[FIRST],
            row[FIRST_VALUE],
            row[SECOND],
            row[SECOND_VALUE],
            1,
            row[FIELD_2],
        ];
    }
    [0; 6]
}

// Track angle, its status, speed.
#[tactic(auto, unfolding(crate::specs::Shown::going))]
fn going_by(row: [u64; ROW]) -> [u64; 6]
    ensures { result ≡ going row }
{
    if row[0] == rows::LAYOUT_COARSE {
        return [
            row[THIRD],
            row[THIRD_VALUE],
            1,
            row[FIELD_4],
            row[FOURTH],
            row[FOURTH_VALUE],
        ];
    }
    [0; 6]
}

// Of a track of a kind.
pub(crate) fn shown_values(kind: Kind, t: Track) -> [u64; SHOWN]
    ensures { result ≡ shown kind t }
{
    let traffic = keys::is_traffic(kind);
    let [even, odd] = t.saved;
    let g = t.groups;
    let surface = row_in(false, traffic, g.surface);
    let velocity = row_in(keys::is_coarse(kind), traffic, g.velocity);
    let n = named_by(row_in(false, traffic, g.identification));
    let m = moving_by(traffic, velocity);
    let o = ground_by(even.known | odd.known, surface);
    let s = taxiing_by(surface);
    let a = going_by(velocity);
    [
        n[0], n[1], n[2], n[3], n[4], n[5], m[0], m[1], m[2], m[3], m[4], m[5], m[6], m[7], m[8],
        m[9], m[10], m[11], m[12], m[13], m[14], m[15], o[0], o[1], s[0], s[1], s[2], s[3], s[4],
        s[5], a[0], a[1], a[2], a[3], a[4], a[5],
    ]
}
