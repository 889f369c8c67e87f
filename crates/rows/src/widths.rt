// The fields of a layout by their widths: cut out of the 56 bits of ME, and packed into them.
ghost use Rattle.std.specs.Prelude.{◌≡◌, ◌+◌, ◌*◌, ◌/◌, ◌%◌, ◌^◌, ◌<◌, ◌≤◌, length};
ghost use Rattle.fields.specs.Packing.{wider, total, unpack};
ghost use Rattle.layouts.specs.Bodies.{layout_widths};
ghost use Rattle.entries.specs.Arrays.{filled};
ghost use Rattle.rows.specs.Rows.{layout_number};
ghost use Rattle.rows.specs.From.{layout_numbered, packed_by, packed_as};

use crate::{
    LAYOUT_AIR, LAYOUT_AIRBORNE, LAYOUT_COARSE, LAYOUT_GROUND, LAYOUT_IDENTIFICATION, LAYOUT_NONE,
    LAYOUT_STATUS, LAYOUT_SURFACE,
};
use layouts::Layout;
use refusals::Refusal;

const IDENTIFICATION: [u8; 3] = [5, 3, 48];

const SURFACE: [u8; 8] = [5, 7, 1, 7, 1, 1, 17, 17];

const AIRBORNE: [u8; 8] = [5, 2, 1, 12, 1, 1, 17, 17];

const VELOCITY: [u8; 15] = [5, 3, 1, 1, 3, 1, 10, 1, 10, 1, 1, 9, 2, 1, 7];

const STATUS: [u8; 14] = [5, 3, 11, 1, 4, 16, 3, 1, 4, 2, 2, 1, 1, 2];

const COARSE: [u8; 10] = [1, 2, 4, 12, 1, 5, 6, 1, 12, 12];

// No `From` and no `TryFrom`: neither `Layout` nor `u64` is of this crate.
pub(crate) fn number_of(layout: Layout) -> u64
    ensures { result ≡ layout_number layout }
{
    match layout {
        Layout::NotTaken => LAYOUT_NONE,
        Layout::Identification => LAYOUT_IDENTIFICATION,
        Layout::Surface => LAYOUT_SURFACE,
        Layout::Airborne => LAYOUT_AIRBORNE,
        Layout::Ground => LAYOUT_GROUND,
        Layout::Air => LAYOUT_AIR,
        Layout::Status => LAYOUT_STATUS,
        Layout::Coarse => LAYOUT_COARSE,
    }
}

// The layout of a number; that of a number that no layout has is none.
#[tactic(auto, unfolding(crate::specs::From::layout_numbered))]
pub(crate) fn layout_at(number: u64) -> Layout
    ensures { result ≡ layout_numbered number }
{
    match number {
        LAYOUT_IDENTIFICATION => Layout::Identification,
        LAYOUT_SURFACE => Layout::Surface,
        LAYOUT_AIRBORNE => Layout::Airborne,
        LAYOUT_GROUND => Layout::Ground,
        LAYOUT_AIR => Layout::Air,
        LAYOUT_STATUS => Layout::Status,
        LAYOUT_COARSE => Layout::Coarse,
        _ => Layout::NotTaken,
    }
}

// So many bits, above as many others.
fn field_at(me: u64, below: u64, width: u64) -> u64
    requires { (below < 64) × (width < 64) }
    ensures { result ≡ me / 2 ^ below % 2 ^ width }
{
    (me >> below) % (1 << width)
}

// The fields of ME, 15 at most, and zeros behind them. The compiler knows the widths, and makes a shift and a mask of each turn.
fn cut(widths: &[u8], me: u64) -> [u64; 15]
    requires { (length widths.now ≤ 15) × (total widths.now ≡ 56) }
    ensures { result ≡ filled 15 (unpack widths.now me) }
{
    let mut out = [0u64; 15];
    let mut below: u64 = 56;
    let mut i: usize = 0;
    while i < widths.len() {
        let width = u64::from(widths[i]);
        below -= width;
        out[i] = field_at(me, below, width);
        i += 1;
    }
    out
}

// Fills an array with them.
fn put_cut(out: &mut [u64], widths: &[u8], me: u64)
    requires { (length widths.now ≤ 15) × (total widths.now ≡ 56) }
    ensures { out.new ≡ filled (length out.old) (filled 15 (unpack widths.now me)) }
{
    let f = cut(widths, me);
    entries::fill(out, &f);
}

// Fills an array with the fields of ME in a layout, 15 at most, in an arm of its own for each: so they go where they stand.
pub(crate) fn put_fields(out: &mut [u64], layout: Layout, me: u64)
    ensures { out.new ≡ filled (length out.old) (filled 15 (unpack (layout_widths layout) me)) }
{
    match layout {
        Layout::Identification => put_cut(out, &IDENTIFICATION, me),
        Layout::Surface => put_cut(out, &SURFACE, me),
        Layout::Airborne => put_cut(out, &AIRBORNE, me),
        Layout::Ground => put_cut(out, &VELOCITY, me),
        Layout::Air => put_cut(out, &VELOCITY, me),
        Layout::Status => put_cut(out, &STATUS, me),
        Layout::Coarse => put_cut(out, &COARSE, me),
        Layout::NotTaken => entries::fill(out, &[0u64; 15]),
    }
}

fn is_wider(width: u64, code: u64) -> bool
    requires { width < 64 }
    ensures { result ≡ wider width code }
{
    (1 << width) <= code
}

// A field behind the bits before it.
fn behind(me: u64, width: u64, code: u64) -> u64
    requires { (width < 64) × (me * 2 ^ width + code < 2 ^ 64) }
    ensures { result ≡ me * 2 ^ width + code }
{
    (me << width) + code
}

// The 56 bits that hold the fields from the entry 5 on; one that is wider than its bits is refused.
fn packed(widths: &[u8], fields: &[u64]) -> Result<u64, Refusal>
    requires { (length widths.now ≤ 15) × (total widths.now ≡ 56) }
    ensures { result ≡ packed_by widths.now fields.now }
{
    let mut me: u64 = 0;
    let mut i: usize = 0;
    while i < widths.len() {
        let width = u64::from(widths[i]);
        let code = entries::entry(fields, 5 + i);
        if is_wider(width, code) {
            return Err(Refusal::Field);
        }
        me = behind(me, width, code);
        i += 1;
    }
    Ok(me)
}

// Those of a layout.
#[tactic(auto, unfolding(crate::specs::From::packed_as))]
pub(crate) fn packed_as(layout: Layout, fields: &[u64]) -> Result<u64, Refusal>
    ensures { result ≡ packed_as layout fields.now }
{
    match layout {
        Layout::Identification => packed(&IDENTIFICATION, fields),
        Layout::Surface => packed(&SURFACE, fields),
        Layout::Airborne => packed(&AIRBORNE, fields),
        Layout::Ground | Layout::Air => packed(&VELOCITY, fields),
        Layout::Status => packed(&STATUS, fields),
        Layout::Coarse => packed(&COARSE, fields),
        Layout::NotTaken => Err(Refusal::Field),
    }
}
