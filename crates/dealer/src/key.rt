// The key of a message: by it a message goes to its table, or into the log of its aircraft.
ghost use Rattle.std.specs.Prelude.{◌≡◌};
ghost use Rattle.messages.specs.Message.{decoded};
ghost use Rattle.entries.specs.Sent.{sent, into};
ghost use Rattle.dealer.specs.Keys.{key_said};

use entries::give;

// The key of an acceptable message, into one entry. Or 1, then 3, 4, 5.
pub fn addercoil_key(message: &[u8], out: &mut [u64]) -> u32
    ensures { sent result out.new ≡ into 1 out.old (key_said (decoded message.now)) }
{
    if out.len() != 1 {
        return 1;
    }
    let answer = messages::accept(message);
    match answer {
        Ok(f) => give(out, &[messages::frame_key(f) as u64]),
        Err(r) => refusals::number(r),
    }
}
