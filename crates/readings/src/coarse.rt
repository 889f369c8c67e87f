// The speed of a coarse message, in knots.
ghost use Rattle.std.specs.Prelude.{◌≡◌};
ghost use Rattle.readings.specs.Coarse.{coarse_speed_at, coarse_speed_of};

use refusals::Refusal;

#[derive(Clone, Copy)]
pub enum CoarseSpeed {
    Unknown,
    // the speed is from here to the next code's edge
    LowerEdge(u32),
    // the speed is from here up
    AndUp(u32),
}

// The speed of a code of 6 bits.
#[tactic(auto, unfolding(crate::specs::Coarse::coarse_speed_at))]
pub(crate) fn coarse_speed_at(code: u8) -> CoarseSpeed
    ensures { result ≡ coarse_speed_at code }
{
    match code {
        0 => CoarseSpeed::Unknown,
        1 => CoarseSpeed::LowerEdge(0),
        2..=62 => CoarseSpeed::LowerEdge(32 * u32::from(code) - 48),
        _ => CoarseSpeed::AndUp(1968),
    }
}

// The same; a code wider than its bits is refused.
#[tactic(auto, unfolding(crate::specs::Coarse::coarse_speed_of))]
pub fn coarse_speed_of(code: u8) -> Result<CoarseSpeed, Refusal>
    ensures { result ≡ coarse_speed_of code }
{
    if 64 <= code {
        return Err(Refusal::Field);
    }
    Ok(coarse_speed_at(code))
}
