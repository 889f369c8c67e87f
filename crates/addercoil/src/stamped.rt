// A message received with a stamp of a clock of 32 bits; the state is a lent array of two entries.
ghost use Rattle.std.specs.Prelude.{◌≡◌, length};
ghost use Rattle.addercoil.specs.Blocks.{both};
ghost use Rattle.entries.specs.Sent.{sent};
ghost use Rattle.addercoil.specs.Stamps.{noted_sent, received_stamp};

use crate::done::done_number;
use entries::bit;
use stamps::{Noted, Stamps};

fn give_noted(state: &mut [u64], noted: Noted) -> u32
    requires { length state.old ≡ 2 }
    ensures { sent result state.new ≡ noted_sent noted }
{
    let next = noted.state;
    state[0] = bit(next.started);
    state[1] = next.last as u64;
    done_number(noted.answer)
}

// A message received with a stamp, with the state in 2 entries: whether one has been accepted, and the last. Or 1, 7, 8, 2 or 13, 3, 4, 5, then 6 or 12, in that order.
pub fn addercoil_receive_stamp(
    table: &mut [u8],
    message: &[u8],
    stamp: u32,
    state: &mut [u64],
) -> u32
    ensures { both (sent result state.new) table.new ≡ received_stamp table.old message.now stamp state.old }
{
    if (message.len() != 14) | (state.len() != 2) {
        return 1;
    }
    if !table_bytes::whole_places(table.len()) {
        return 7;
    }
    let started = state[0];
    let last = state[1];
    if (1 < started) | (0x1_0000_0000 <= last) {
        return 8;
    }
    let from = Stamps {
        started: started == 1,
        last: last as u32,
    };
    give_noted(state, stamps::hear(table, from, message, stamp))
}
