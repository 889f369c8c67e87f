// Runs the lent table on the records of standard input, each a letter and its arguments. The table is the first bytes of a buffer;
// numbers are high byte first, of four bytes but for a time, which has eight, and a count, which has one.
//
//   S length: set up. A length latitude longitude: set up with a site. L length: lent as it is. F length seed: lent, and filled.
//   P offset count bytes: other bytes in the buffer. R time count bytes: receive. K key: look up. N key: the next key.
//   W: the clock, the site and each key with its track. B: the parity remainder of the whole table.
//   J length kind flag station address known latitude longitude: the first bytes of the buffer replayed as a log; kind, flag, station and known have one byte.
// `reference/vectors/bench.py` has what each writes.
#![tactic(auto)]

use keys::Kind;
use messages::Message;
use positions::Spot;
use refusals::Refusal;
use std::io::{self, Read};
use track::{Groups, Track};
use whereabouts::{Position, Saved, Site};

// ---- what is read; where the input has ended, zeros

fn byte(input: &mut impl Read) -> io::Result<u8> {
    let mut b = [0u8; 1];
    streams::read_full(input, &mut b)?;
    Ok((fields::number_of(&b) % 256) as u8)
}

fn word(input: &mut impl Read) -> io::Result<u32> {
    let mut b = [0u8; 4];
    streams::read_full(input, &mut b)?;
    Ok((fields::number_of(&b) % 4294967296) as u32)
}

fn long(input: &mut impl Read) -> io::Result<u64> {
    let mut b = [0u8; 8];
    streams::read_full(input, &mut b)?;
    Ok(fields::number_of(&b))
}

fn length(input: &mut impl Read) -> io::Result<usize> {
    Ok(word(input)? as usize)
}

fn read_spot(input: &mut impl Read) -> io::Result<Spot> {
    let latitude = word(input)?.cast_signed();
    let longitude = word(input)?;
    Ok(Spot {
        latitude,
        longitude,
    })
}

// ---- what is written

// A value, with the space that parts it from what stands before.
fn say(out: &impl Print, n: impl Into<u64>) -> io::Result<()> {
    let n: u64 = n.into();
    print!(out; " {n}")
}

fn say_spot(out: &impl Print, s: Spot) -> io::Result<()> {
    out.print(s.latitude)?;
    say(out, s.longitude)
}

fn say_refused(out: &impl Print, r: Refusal) -> io::Result<()> {
    print!(out; "refused {}", refusals::number(r))
}

fn say_bytes(out: &impl Print, s: &[u8]) -> io::Result<()> {
    for b in s {
        print!(out; "{b:02X}")?;
    }
    Ok(())
}

fn say_message(out: &impl Print, m: Message) -> io::Result<()> {
    let mut bytes = [0u8; 14];
    match encoder::encode(m, &mut bytes) {
        Ok(()) => say_bytes(out, &bytes),
        Err(r) => say_refused(out, r),
    }
}

// ---- a track, every value of it

fn say_groups(out: &impl Print, g: Groups) -> io::Result<()> {
    say(out, g.identification)?;
    say(out, g.velocity)?;
    say(out, g.surface)?;
    say(out, g.pressure)?;
    say(out, g.height)
}

// What a status and the latest position message left, which stand last in a line.
fn say_told(out: &impl Print, g: Groups) -> io::Result<()> {
    say(out, g.status)?;
    say(out, g.typecode)?;
    say(out, g.bit8)?;
    say(out, g.coarse)
}

fn say_position(out: &impl Print, p: Position) -> io::Result<()> {
    say(out, p.known)?;
    out.print(" ")?;
    say_spot(out, p.spot)?;
    say(out, p.time)
}

fn say_saved(out: &impl Print, v: Saved) -> io::Result<()> {
    say(out, v.known)?;
    say(out, v.counts.latitude.0)?;
    say(out, v.counts.longitude.0)?;
    say(out, v.time)?;
    say(out, v.coarse)
}

fn say_track(out: &impl Print, t: Track) -> io::Result<()> {
    say(out, t.heard)?;
    let g = t.groups;
    say_groups(out, g)?;
    say_position(out, t.position)?;
    for v in t.saved {
        say_saved(out, v)?;
    }
    say_told(out, g)
}

// A line's end: whether a key is held, and its track, or one that has heard nothing.
fn say_found(out: &impl Print, looked: Result<Option<Track>, Refusal>) -> io::Result<()> {
    match looked {
        Ok(Some(_)) => out.print("held"),
        Ok(None) => out.print("unheld"),
        Err(r) => say_refused(out, r),
    }?;
    let held = looked.unwrap_or(None);
    say_track(out, held.unwrap_or(track::new_track()))?;
    out.print("\n")
}

fn say_looked(out: &impl Print, lent: &[u8], key: u32) -> io::Result<()> {
    say_found(out, table::look_up(lent, key))
}

// ---- the calls

fn say_set_up(out: &impl Print, s: Result<(), Refusal>) -> io::Result<()> {
    match s {
        Ok(()) => out.print("done"),
        Err(r) => say_refused(out, r),
    }?;
    out.print("\n")
}

fn set_up(out: &impl Print, buf: &mut [u8], n: usize) -> io::Result<()> {
    if n <= buf.len() {
        let s = table::set_up(&mut buf[..n]);
        say_set_up(out, s)?;
    }
    Ok(())
}

fn set_up_at(input: &mut impl Read, out: &impl Print, buf: &mut [u8], n: usize) -> io::Result<()> {
    let site = read_spot(input)?;
    if n <= buf.len() {
        let s = table::set_up_at(&mut buf[..n], site);
        say_set_up(out, s)?;
    }
    Ok(())
}

// Each byte is the top one of a step of a small generator of 32 bits.
fn fill_all(lent: &mut [u8], seed: u32) {
    let mut x = seed;
    for b in lent.iter_mut() {
        x = x.wrapping_mul(1664525).wrapping_add(1013904223);
        *b = (x / 16777216) as u8;
    }
}

fn fill(input: &mut impl Read, buf: &mut [u8], n: usize) -> io::Result<()> {
    let seed = word(input)?;
    if n <= buf.len() {
        fill_all(&mut buf[..n], seed);
    }
    Ok(())
}

fn poke(input: &mut impl Read, buf: &mut [u8]) -> io::Result<()> {
    let at = length(input)?;
    let count = usize::from(byte(input)?);
    if at <= buf.len() && count <= buf.len() - at {
        let end = at + count;
        streams::read_full(input, &mut buf[at..end])?;
    }
    Ok(())
}

fn say_received(out: &impl Print, lent: &[u8], d: Result<Message, Refusal>) -> io::Result<()> {
    match d {
        Ok(m) => {
            let key = messages::key_of(m);
            say_message(out, m)?;
            print!(out; " {key} ")?;
            say_looked(out, lent, key)
        }
        Err(r) => {
            say_refused(out, r)?;
            out.print("\n")
        }
    }
}

fn receive_message(out: &impl Print, lent: &mut [u8], s: &[u8], time: u64) -> io::Result<()> {
    let d = table::receive(lent, s, time);
    say_received(out, lent, d)
}

fn receive(input: &mut impl Read, out: &impl Print, buf: &mut [u8], n: usize) -> io::Result<()> {
    let time = long(input)?;
    let count = usize::from(byte(input)?);
    let mut space = [0u8; 256];
    let part: &mut [u8] = &mut space;
    if count <= part.len() && n <= buf.len() {
        streams::read_full(input, &mut part[..count])?;
        receive_message(out, &mut buf[..n], &part[..count], time)?;
    }
    Ok(())
}

fn look_up(input: &mut impl Read, out: &impl Print, buf: &[u8], n: usize) -> io::Result<()> {
    let key = word(input)?;
    if n <= buf.len() {
        say_looked(out, &buf[..n], key)?;
    }
    Ok(())
}

fn read_kind(input: &mut impl Read) -> io::Result<Kind> {
    let number = byte(input)?;
    let flag = byte(input)?;
    let station = byte(input)?;
    if number == 6 {
        return Ok(Kind::C(flag, station));
    }
    Ok(keys::kind_at(u32::from(number)))
}

fn work_out(input: &mut impl Read, out: &impl Print, buf: &[u8]) -> io::Result<()> {
    let n = length(input)?;
    let kind = read_kind(input)?;
    let address = word(input)?;
    let known = byte(input)? == 1;
    let spot = read_spot(input)?;
    if n <= buf.len() {
        say_found(
            out,
            replay::replay(&buf[..n], kind, address, Site { known, spot }),
        )?;
    }
    Ok(())
}

fn say_next(out: &impl Print, n: Result<Option<u32>, Refusal>) -> io::Result<()> {
    match n {
        Ok(Some(k)) => out.print(k),
        Ok(None) => out.print("end"),
        Err(r) => say_refused(out, r),
    }?;
    out.print("\n")
}

fn say_next_key(input: &mut impl Read, out: &impl Print, buf: &[u8], n: usize) -> io::Result<()> {
    let above = word(input)?;
    if n <= buf.len() {
        let k = table::next(&buf[..n], above);
        say_next(out, k)?;
    }
    Ok(())
}

fn say_clock(out: &impl Print, c: Result<u64, Refusal>) -> io::Result<()> {
    match c {
        Ok(t) => out.print(t),
        Err(r) => say_refused(out, r),
    }?;
    out.print(" ")
}

fn say_site(out: &impl Print, s: Site) -> io::Result<()> {
    if s.known {
        say_spot(out, s.spot)
    } else {
        out.print("-")
    }
}

fn say_sited(out: &impl Print, s: Result<Site, Refusal>) -> io::Result<()> {
    match s {
        Ok(at) => say_site(out, at),
        Err(r) => say_refused(out, r),
    }?;
    out.print("\n")
}

// The line of the next key, which is answered, or how the walk ends, and 0.
fn say_following(out: &impl Print, lent: &[u8], above: u32) -> io::Result<u32> {
    let n = table::next(lent, above);
    let Ok(Some(k)) = n else {
        say_next(out, n)?;
        return Ok(0);
    };
    print!(out; "{k} ")?;
    say_looked(out, lent, k)?;
    Ok(k)
}

fn say_keys(out: &impl Print, lent: &[u8]) -> io::Result<()> {
    let mut above: u32 = 0;
    for _ in 0..2000 {
        above = say_following(out, lent, above)?;
        if above == 0 {
            break;
        }
    }
    Ok(())
}

fn walk_all(out: &impl Print, lent: &[u8]) -> io::Result<()> {
    say_clock(out, table::clock_of(lent))?;
    say_sited(out, table::site_of(lent))?;
    say_keys(out, lent)
}

fn walk(out: &impl Print, buf: &[u8], n: usize) -> io::Result<()> {
    if n <= buf.len() {
        walk_all(out, &buf[..n])?;
    }
    Ok(())
}

fn say_remainder(out: &impl Print, buf: &[u8], n: usize) -> io::Result<()> {
    if n <= buf.len() {
        let remainder = parity::remainder_of(&buf[..n]);
        println!(out; "{remainder:06x}")?;
    }
    Ok(())
}

// ---- the records

// One that lends so many bytes anew.
fn lend(input: &mut impl Read, out: &impl Print, letter: u8, buf: &mut [u8]) -> io::Result<usize> {
    let n = length(input)?;
    match letter {
        b'S' => set_up(out, buf, n),
        b'A' => set_up_at(input, out, buf, n),
        b'F' => fill(input, buf, n),
        _ => Ok(()),
    }?;
    Ok(n)
}

// One that leaves the length as it is.
fn use_lent(
    input: &mut impl Read,
    out: &impl Print,
    letter: u8,
    buf: &mut [u8],
    n: usize,
) -> io::Result<()> {
    match letter {
        b'P' => poke(input, buf),
        b'R' => receive(input, out, buf, n),
        b'K' => look_up(input, out, buf, n),
        b'N' => say_next_key(input, out, buf, n),
        b'W' => walk(out, buf, n),
        b'J' => work_out(input, out, buf),
        _ => say_remainder(out, buf, n),
    }
}

// Carries one out, and says how many bytes are lent after it.
fn one(
    input: &mut impl Read,
    out: &impl Print,
    letter: u8,
    buf: &mut [u8],
    n: usize,
) -> io::Result<usize> {
    match letter {
        b'S' | b'A' | b'F' | b'L' => lend(input, out, letter, buf),
        _ => {
            use_lent(input, out, letter, buf, n)?;
            Ok(n)
        }
    }
}

fn main(rt: HostRuntime) -> io::Result<()> {
    let mut input = rt.reader();
    let mut space = [0u8; 88200];
    let buf: &mut [u8] = &mut space;
    let mut n: usize = 0;
    for _ in 0..u64::MAX {
        let letter = byte(&mut input)?;
        if letter == 0 {
            break;
        }
        n = one(&mut input, &rt, letter, buf, n)?;
    }
    Ok(())
}
