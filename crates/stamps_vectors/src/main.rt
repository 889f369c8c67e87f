// Runs `stamps` on the records of standard input, each a letter and its arguments. The table is the first bytes of a buffer, and a state goes with it;
// numbers are high byte first, of four bytes but for a time and a clock, which have eight, and a flag and a count, which have one.
//
//   S length: set up, with a fresh state. L length: lent as it is. K flag last: another state.
//   T stamp count bytes: receive with the stamp. R time count bytes: receive at the time. E clock stamp: extend.
// `reference/vectors/stamps_vectors.py` has what each writes.
#![tactic(auto)]

use messages::Message;
use refusals::Refusal;
use stamps::Stamps;
use std::io::{self, Read};

// How many bytes are lent, and the state beside them.
#[derive(Clone, Copy)]
struct Lent {
    length: usize,
    state: Stamps,
}

// ---- what is read; where the input has ended, zeros

fn byte(input: &mut impl Read) -> io::Result<u8> {
    let mut b = [0u8; 1];
    streams::read_full(input, &mut b)?;
    Ok((fields::number_of(&b) % 256) as u8)
}

fn word(input: &mut impl Read) -> io::Result<u32> {
    let mut b = [0u8; 4];
    streams::read_full(input, &mut b)?;
    Ok((fields::number_of(&b) % 4294967296) as u32)
}

fn long(input: &mut impl Read) -> io::Result<u64> {
    let mut b = [0u8; 8];
    streams::read_full(input, &mut b)?;
    Ok(fields::number_of(&b))
}

fn fresh() -> Stamps {
    Stamps {
        started: false,
        last: 0,
    }
}

fn read_state(input: &mut impl Read) -> io::Result<Stamps> {
    let started = byte(input)? == 1;
    let last = word(input)?;
    Ok(Stamps { started, last })
}

// ---- what is written

fn say_refused(out: &impl Print, r: Refusal) -> io::Result<()> {
    print!(out; "refused {}", refusals::number(r))
}

// A message is told by its key.
fn say_answer(out: &impl Print, d: Result<Message, Refusal>) -> io::Result<()> {
    match d {
        Ok(m) => out.print(messages::key_of(m)),
        Err(r) => say_refused(out, r),
    }
}

fn say_clock(out: &impl Print, c: Result<u64, Refusal>) -> io::Result<()> {
    match c {
        Ok(t) => out.print(t),
        Err(r) => say_refused(out, r),
    }
}

fn say_state(out: &impl Print, state: Stamps) -> io::Result<()> {
    if state.started {
        out.print(state.last)
    } else {
        out.print("-")
    }
}

// The clock, the state, and the parity remainder of the whole table.
fn say_left(out: &impl Print, lent: &[u8], state: Stamps) -> io::Result<()> {
    out.print(" ")?;
    say_clock(out, table::clock_of(lent))?;
    out.print(" ")?;
    say_state(out, state)?;
    let remainder = parity::remainder_of(lent);
    println!(out; " {remainder:06x}")
}

// ---- the calls

fn set_up(out: &impl Print, buf: &mut [u8], n: usize) -> io::Result<()> {
    if n <= buf.len() {
        match table::set_up(&mut buf[..n]) {
            Ok(()) => out.print("done"),
            Err(r) => say_refused(out, r),
        }?;
        out.print("\n")?;
    }
    Ok(())
}

fn receive_stamp(
    out: &impl Print,
    lent: &mut [u8],
    state: Stamps,
    s: &[u8],
    stamp: u32,
) -> io::Result<Stamps> {
    let stamped = stamps::receive(lent, state, s, stamp);
    say_answer(out, stamped.answer)?;
    say_left(out, lent, stamped.state)?;
    Ok(stamped.state)
}

fn with_stamp(
    input: &mut impl Read,
    out: &impl Print,
    buf: &mut [u8],
    n: usize,
    state: Stamps,
) -> io::Result<Stamps> {
    let stamp = word(input)?;
    let count = usize::from(byte(input)?);
    let mut space = [0u8; 256];
    let part: &mut [u8] = &mut space;
    if count <= part.len() && n <= buf.len() {
        streams::read_full(input, &mut part[..count])?;
        return receive_stamp(out, &mut buf[..n], state, &part[..count], stamp);
    }
    Ok(state)
}

fn receive_time(
    out: &impl Print,
    lent: &mut [u8],
    state: Stamps,
    s: &[u8],
    time: u64,
) -> io::Result<()> {
    say_answer(out, table::receive(lent, s, time))?;
    say_left(out, lent, state)
}

fn at_time(
    input: &mut impl Read,
    out: &impl Print,
    buf: &mut [u8],
    n: usize,
    state: Stamps,
) -> io::Result<()> {
    let time = long(input)?;
    let count = usize::from(byte(input)?);
    let mut space = [0u8; 256];
    let part: &mut [u8] = &mut space;
    if count <= part.len() && n <= buf.len() {
        streams::read_full(input, &mut part[..count])?;
        receive_time(out, &mut buf[..n], state, &part[..count], time)?;
    }
    Ok(())
}

fn extend(input: &mut impl Read, out: &impl Print, state: Stamps) -> io::Result<()> {
    let clock = long(input)?;
    let stamp = word(input)?;
    say_clock(out, stamps::extend(state, clock, stamp))?;
    out.print("\n")
}

// ---- the records

fn lend(
    input: &mut impl Read,
    out: &impl Print,
    letter: u8,
    buf: &mut [u8],
    state: Stamps,
) -> io::Result<Lent> {
    let length = word(input)? as usize;
    if letter == b'S' {
        set_up(out, buf, length)?;
        return Ok(Lent {
            length,
            state: fresh(),
        });
    }
    Ok(Lent { length, state })
}

// One that leaves the length as it is; the state after it.
fn use_lent(
    input: &mut impl Read,
    out: &impl Print,
    letter: u8,
    buf: &mut [u8],
    lent: Lent,
) -> io::Result<Stamps> {
    let Lent { length, state } = lent;
    match letter {
        b'K' => read_state(input),
        b'T' => with_stamp(input, out, buf, length, state),
        b'R' => {
            at_time(input, out, buf, length, state)?;
            Ok(state)
        }
        _ => {
            extend(input, out, state)?;
            Ok(state)
        }
    }
}

fn one(
    input: &mut impl Read,
    out: &impl Print,
    letter: u8,
    buf: &mut [u8],
    lent: Lent,
) -> io::Result<Lent> {
    match letter {
        b'S' | b'L' => lend(input, out, letter, buf, lent.state),
        _ => Ok(Lent {
            length: lent.length,
            state: use_lent(input, out, letter, buf, lent)?,
        }),
    }
}

fn main(rt: HostRuntime) -> io::Result<()> {
    let mut input = rt.reader();
    let mut space = [0u8; 1000];
    let buf: &mut [u8] = &mut space;
    let mut lent = Lent {
        length: 0,
        state: fresh(),
    };
    for _ in 0..u64::MAX {
        let letter = byte(&mut input)?;
        if letter == 0 {
            break;
        }
        lent = one(&mut input, &rt, letter, buf, lent)?;
    }
    Ok(())
}
