// One byte of the division by x^24 plus the terms of 0xFFF409, by a table.
ghost use Rattle.std.specs.Prelude.{◌≡◌, ◌%◌, ◌^◌};
ghost use Rattle.parity.specs.Division.{stepped};

use crate::lookup::entry;

// What is left of the low 24 bits of r with one byte more: the low 16 bits move up, and the table says what the high 8 and the byte leave.
#[tactic(auto, using(crate::proofs::Entries::step_low))]
pub fn step(r: u32, byte: u8) -> u32
    ensures { result ≡ stepped (r % 2 ^ 24) byte }
{
    let i = (r / 0x1_0000 % 256) as u8 ^ byte;
    (r % 0x1_0000 * 256) ^ entry(i)
}
