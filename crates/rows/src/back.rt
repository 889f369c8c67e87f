// A message back from its 28 numbers. One that is too large for its place is refused with 8.
ghost use Rattle.std.specs.Prelude.{◌≡◌, ◌<◌};
ghost use Rattle.rows.specs.From.{message_with, layout_with, head_with, message_by, message_from};

use crate::widths::{layout_at, number_of, packed_as};
use layouts::Body;
use messages::Message;
use refusals::Refusal;

fn message_with(
    format: u8,
    control: u8,
    address: u32,
    taken: Result<Body, Refusal>,
) -> Result<Message, Refusal>
    ensures { result ≡ message_with format control address taken }
{
    match taken {
        Ok(b) => Ok(Message {
            format,
            control,
            address,
            body: b,
        }),
        Err(_) => Err(Refusal::Field),
    }
}

// With an ME that has the layout of a number, which is the coarse one where DF and CF say so.
fn layout_with(
    number: u64,
    format: u8,
    control: u8,
    address: u32,
    me: u64,
) -> Result<Message, Refusal>
    ensures { result ≡ layout_with number format control address me }
{
    let coarse = messages::coarse_by(format, control);
    if number_of(layouts::layout_by(coarse, me)) != number {
        return Err(Refusal::Field);
    }
    message_with(format, control, address, layouts::body_by(coarse, me))
}

// DF, CA or CF and AA, each within its bits, with an ME.
#[tactic(auto, unfolding(crate::specs::From::head_with))]
fn head_with(
    number: u64,
    format: u64,
    control: u64,
    address: u64,
    me: u64,
) -> Result<Message, Refusal>
    ensures { result ≡ head_with number format control address me }
{
    if (format < 32) & (control < 8) & (address < 0x100_0000) {
        layout_with(number, format as u8, control as u8, address as u32, me)
    } else {
        Err(Refusal::Field)
    }
}

// With an ME and what entries 0 to 3 say.
#[tactic(auto, unfolding(crate::specs::From::message_by))]
fn with_me(fields: &[u64], me: u64) -> Result<Message, Refusal>
    ensures { result ≡ message_by fields.now (Ok me) }
{
    let number = entries::entry(fields, 0);
    let format = entries::entry(fields, 1);
    let control = entries::entry(fields, 2);
    let address = entries::entry(fields, 3);
    head_with(number, format, control, address, me)
}

// A message from its 28 numbers, or 8.
#[tactic(auto, unfolding(crate::specs::From::message_from, crate::specs::From::message_by))]
pub fn message_from(fields: &[u64]) -> Result<Message, Refusal>
    ensures { result ≡ message_from fields.now }
{
    let layout = layout_at(entries::entry(fields, 0));
    let me = packed_as(layout, fields)?;
    with_me(fields, me)
}
