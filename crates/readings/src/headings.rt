// Headings, and track angles, as parts of a turn.
ghost use Rattle.std.specs.Prelude.{◌≡◌, ◌<◌, ◌≤◌, ◌^◌};
ghost use Rattle.readings.specs.Headings.{heading_of, turn_of};

use refusals::Refusal;

// The part of a turn that a code of so many bits says.
#[tactic(auto, using(crate::proofs::Turns::turn_kept))]
pub(crate) fn turn_of(bits: u32, code: u32) -> u32
    requires { (0 < bits) × (bits ≤ 32) × (code < 2 ^ bits) }
    ensures { result ≡ turn_of bits code }
{
    code << (32 - bits)
}

// The same; a code wider than its bits is refused.
fn within(bits: u32, code: u32) -> Result<u32, Refusal>
    requires { (0 < bits) × (bits < 32) }
    ensures { result ≡ heading_of bits code }
{
    if 1 << bits <= code {
        return Err(Refusal::Field);
    }
    Ok(turn_of(bits, code))
}

// The heading of a code of 10 bits, of TYPE 19.
pub fn heading_of(code: u16) -> Result<u32, Refusal>
    ensures { result ≡ heading_of 10 code }
{
    within(10, u32::from(code))
}

// The heading of a code of 7 bits, on the surface.
pub fn surface_heading_of(code: u8) -> Result<u32, Refusal>
    ensures { result ≡ heading_of 7 code }
{
    within(7, u32::from(code))
}

// The track angle of a code of 5 bits, of a coarse message.
pub fn angle_of(code: u8) -> Result<u32, Refusal>
    ensures { result ≡ heading_of 5 code }
{
    within(5, u32::from(code))
}
