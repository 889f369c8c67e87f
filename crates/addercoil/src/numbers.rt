// A message as a row of numbers, and back from its row.
ghost use Rattle.std.specs.Prelude.{◌≡◌, length};
ghost use Rattle.messages.specs.Message.{decoded};
ghost use Rattle.messages.specs.Accepted.{frame_says, decoded_by};
ghost use Rattle.entries.specs.Sent.{sent, given, into};
ghost use Rattle.rows.specs.Rows.{row_size};
ghost use Rattle.addercoil.specs.Messages.{message_said, encoded_as, encoded_from};

use crate::done::done_number;
use messages::{Frame, Message};
use refusals::Refusal;

fn give_frame(out: &mut [u64], f: Frame) -> u32
    requires { length out.old ≡ row_size }
    ensures { sent result out.new ≡ given out.old (message_said (frame_says f)) }
{
    let layout = layouts::layout_by(messages::frame_coarse(f), f.me);
    if !layouts::is_layout(layout) {
        return 5;
    }
    rows::put_me(out, layout, f.me, messages::traffic_by(f.format, f.control));
    out[1] = f.format as u64;
    out[2] = f.control as u64;
    out[3] = f.address as u64;
    out[4] = messages::frame_key(f) as u64;
    0
}

fn give_message(out: &mut [u64], answer: Result<Frame, Refusal>) -> u32
    requires { length out.old ≡ row_size }
    ensures { sent result out.new ≡ given out.old (message_said (decoded_by answer)) }
{
    match answer {
        Ok(f) => give_frame(out, f),
        Err(r) => refusals::number(r),
    }
}

// What a message says, into 28 entries. Or 1, then 3, 4, 5.
pub fn addercoil_decode(message: &[u8], fields: &mut [u64]) -> u32
    ensures { sent result fields.new ≡ into row_size fields.old (message_said (decoded message.now)) }
{
    if fields.len() != rows::ROW {
        return 1;
    }
    give_message(fields, messages::frame_in(message))
}

fn encode_into(out: &mut [u8], answer: Result<Message, Refusal>) -> u32
    ensures { sent result out.new ≡ encoded_as out.old answer }
{
    match answer {
        Ok(m) => done_number(encoder::encode(m, out)),
        Err(r) => refusals::number(r),
    }
}

// The 14 bytes that say what the fields say; the key and the readings are not read. Or 1, then 8.
pub fn addercoil_encode(fields: &[u64], message: &mut [u8]) -> u32
    ensures { sent result message.new ≡ encoded_from fields.now message.old }
{
    if (fields.len() != rows::ROW) | (message.len() != 14) {
        return 1;
    }
    encode_into(message, rows::message_from(fields))
}
