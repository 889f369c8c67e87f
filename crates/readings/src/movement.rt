// Movement on the surface, in 48ths of a knot.
ghost use Rattle.std.specs.Prelude.{◌≡◌, ◌≤◌};
ghost use Rattle.readings.specs.Movement.{lower_edge, movement_at, movement_of};

use refusals::Refusal;

#[derive(Clone, Copy)]
pub enum Movement {
    Unknown,
    Stopped,
    // the speed is from here to the next code's edge
    LowerEdge(u32),
    // the speed is from here up
    AndUp(u32),
    Reserved,
}

#[tactic(auto, unfolding(crate::specs::Movement::lower_edge))]
fn lower_edge(c: u32) -> u32
    requires { c ≤ 123 }
    ensures { result ≡ lower_edge c }
{
    match c {
        0..=2 => 0,
        3..=8 => 6 + 7 * (c - 3),
        9..=12 => 48 + 12 * (c - 9),
        13..=38 => 96 + 24 * (c - 13),
        39..=93 => 720 + 48 * (c - 39),
        94..=108 => 3360 + 96 * (c - 94),
        _ => 4800 + 240 * (c - 109),
    }
}

// The movement of a code of 7 bits.
#[tactic(auto, unfolding(crate::specs::Movement::movement_at))]
pub(crate) fn movement_at(code: u8) -> Movement
    ensures { result ≡ movement_at code }
{
    match code {
        0 => Movement::Unknown,
        1 => Movement::Stopped,
        2..=123 => Movement::LowerEdge(lower_edge(u32::from(code))),
        124 => Movement::AndUp(8400),
        _ => Movement::Reserved,
    }
}

// The same; a code wider than its bits is refused.
#[tactic(auto, unfolding(crate::specs::Movement::movement_of))]
pub fn movement_of(code: u8) -> Result<Movement, Refusal>
    ensures { result ≡ movement_of code }
{
    if 128 <= code {
        return Err(Refusal::Field);
    }
    Ok(movement_at(code))
}
