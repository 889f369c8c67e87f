// Receivers with a short clock: a millisecond counter of 32 bits that starts again from 0, extended to the table's clock of 64.
#![tactic(auto)]

ghost use Rattle.std.specs.Prelude.{◌≡◌};
ghost use Rattle.table.specs.Bytes.{bytes};
ghost use Rattle.table.specs.Table.{after};
ghost use Rattle.stamps.specs.Stamps.{last_is, distance, extended, time_of, answered, stamped};
ghost use Rattle.stamps.specs.Heard.{noted, heard};

use messages::Message;
use refusals::Refusal;

// Whether a stamp has been accepted, and the last one that was. The caller keeps it, beside the table.
// It is no `Option<u32>`: C gives back both entries as they were lent, the last one too where none was accepted.
#[derive(Clone, Copy)]
pub struct Stamps {
    pub started: bool,
    pub last: u32,
}

// Of a message received with a stamp: the answer, and the state to go on with. A refused message moves the state too, so no `Result` holds both.
#[derive(Clone, Copy)]
pub struct Stamped {
    pub answer: Result<Message, Refusal>,
    pub state: Stamps,
}

// The same where nobody asks what the message says.
#[derive(Clone, Copy)]
pub struct Noted {
    pub answer: Result<(), Refusal>,
    pub state: Stamps,
}

// How far a stamp is past the last one, around the circle.
#[tactic(auto, unfolding(crate::specs::Stamps::distance))]
fn distance_to(last: u32, stamp: u32) -> u32
    ensures { result ≡ distance last stamp }
{
    stamp.wrapping_sub(last)
}

// The time of a stamp: as it is until one is accepted, then the clock and the distance from the last. Or 2, or 13.
pub fn extend(state: Stamps, clock: u64, stamp: u32) -> Result<u64, Refusal>
    ensures { result ≡ extended state clock stamp }
{
    if !state.started {
        let time = u64::from(stamp);
        if time < clock {
            return Err(Refusal::Late);
        }
        return Ok(time);
    }
    let d = u64::from(distance_to(state.last, stamp));
    if 0x8000_0000 <= d {
        return Err(Refusal::Late);
    }
    if 0xffff_ffff_ffff_ffff - clock < d {
        return Err(Refusal::Overrun);
    }
    Ok(clock + d)
}

// The time at which a message with a stamp is received. Or 1, 7, then 2 or 13: the stamp is not accepted.
fn time_of(table: &[u8], state: Stamps, message: &[u8], stamp: u32) -> Result<u64, Refusal>
    ensures { result ≡ time_of bytes table.now state message.now stamp }
{
    if message.len() != 14 {
        return Err(Refusal::Length);
    }
    let clock = table::clock_of(table)?;
    extend(state, clock, stamp)
}

fn last_is(stamp: u32) -> Stamps
    ensures { result ≡ last_is stamp }
{
    Stamps {
        started: true,
        last: stamp,
    }
}

fn note(answer: Result<(), Refusal>, state: Stamps) -> Noted
    ensures { result ≡ noted answer state }
{
    Noted { answer, state }
}

fn tell(answer: Result<Message, Refusal>, state: Stamps) -> Stamped
    ensures { result ≡ answered answer state }
{
    Stamped { answer, state }
}

// What a message received with a stamp does to the table: done, or the number that it earns. An accepted stamp is the last one, whatever the table answers.
pub fn hear(table: &mut [u8], state: Stamps, message: &[u8], stamp: u32) -> Noted
    ensures { after result table.new ≡ heard (stamped bytes table.old state message.now stamp) }
{
    match time_of(table, state, message, stamp) {
        Ok(t) => note(table::hear(table, message, t), last_is(stamp)),
        Err(r) => note(Err(r), state),
    }
}

// The same, with the decoded message as the answer.
pub fn receive(table: &mut [u8], state: Stamps, message: &[u8], stamp: u32) -> Stamped
    ensures { after result table.new ≡ stamped bytes table.old state message.now stamp }
{
    let heard = hear(table, state, message, stamp);
    match heard.answer {
        Ok(()) => tell(messages::decode(message), heard.state),
        Err(r) => tell(Err(r), heard.state),
    }
}
