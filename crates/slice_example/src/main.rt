// A table of four places on the stack: a message is received in it, and a key is looked up. It prints what each answers.
#![tactic(auto)]

use refusals::Refusal;
use slice_table::{Head, Place, Received};
use std::io;
use track::Track;

#[derive(Clone, Copy)]
struct Heard {
    pub received: Received,
    pub look: Result<Option<Track>, Refusal>,
}

fn nobody() -> Place {
    Place {
        key: 0,
        track: track::new_track(),
    }
}

fn fresh() -> Head {
    Head {
        clock: 0,
        site: whereabouts::no_site(),
    }
}

fn rehearse(message: &[u8], time: u64, key: u32) -> Heard {
    let mut places = [nobody(); 4];
    let received = slice_table::receive(&mut places, fresh(), message, time);
    Heard {
        received,
        look: slice_table::look_up(&places, received.head, key),
    }
}

fn say_received(out: &impl Print, r: Received) -> io::Result<()> {
    match r.answer {
        Ok(m) => print!(out; "message {}", messages::key_of(m)),
        Err(r) => print!(out; "refused {}", refusals::number(r)),
    }
}

fn say_looked(out: &impl Print, look: Result<Option<Track>, Refusal>) -> io::Result<()> {
    match look {
        Ok(Some(t)) => print!(out; " held {}", t.heard),
        Ok(None) => out.print(" unheld"),
        Err(r) => print!(out; " refused {}", refusals::number(r)),
    }?;
    out.print("\n")
}

fn say(out: &impl Print, h: Heard) -> io::Result<()> {
    say_received(out, h.received)?;
    say_looked(out, h.look)
}

fn main(rt: HostRuntime) -> io::Result<()> {
    let message = [
        0x8D, 0x40, 0x62, 0x1D, 0x58, 0xC3, 0x82, 0xD6, 0x90, 0xC8, 0xAC, 0x28, 0x63, 0xA7,
    ];
    let damaged = [
        0x8D, 0x40, 0x62, 0x1D, 0x58, 0xC3, 0x82, 0xD6, 0x90, 0xC8, 0xAC, 0x28, 0x63, 0xA6,
    ];
    say(&rt, rehearse(&message, 1000, 0x140621D))?;
    say(&rt, rehearse(&message, 1000, 0x240621D))?;
    say(&rt, rehearse(&damaged, 1000, 0x140621D))?;
    say(&rt, rehearse(&message[..13], 1000, 0x140621D))
}
