// Decodes each byte string of standard input, a byte of length and then the bytes, and writes its fields in the order of their
// bits with the message encoded again, or the number that it earns. Where the length is 254 the fields of a status follow, and
// where it is 253 those of a coarse message, eight bytes each, and what they are encoded to is written.
#![tactic(auto)]

use counts::{LatitudeCount, LongitudeCount};
use layouts::{Air, Airborne, Body, Coarse, Ground, Identification, Status, Surface, Vertical};
use messages::Message;
use refusals::Refusal;
use std::io::{self, Read};

// A field, with the space that parts it from the next.
fn say(out: &impl Print, n: impl Into<u64>) -> io::Result<()> {
    let n: u64 = n.into();
    print!(out; "{n} ")
}

fn say_refused(out: &impl Print, r: Refusal) -> io::Result<()> {
    print!(out; "refused {}", refusals::number(r))
}

fn say_identification(out: &impl Print, b: Identification) -> io::Result<()> {
    say(out, b.typecode)?;
    say(out, b.category)?;
    say(out, b.characters)
}

fn say_surface(out: &impl Print, b: Surface) -> io::Result<()> {
    say(out, b.typecode)?;
    say(out, b.movement)?;
    say(out, b.status)?;
    say(out, b.heading)?;
    say(out, b.t)?;
    say(out, b.f)?;
    say(out, b.latitude.0)?;
    say(out, b.longitude.0)
}

fn say_airborne(out: &impl Print, b: Airborne) -> io::Result<()> {
    say(out, b.typecode)?;
    say(out, b.surveillance)?;
    say(out, b.bit8)?;
    say(out, b.altitude)?;
    say(out, b.t)?;
    say(out, b.f)?;
    say(out, b.latitude.0)?;
    say(out, b.longitude.0)
}

fn say_vertical(out: &impl Print, v: Vertical) -> io::Result<()> {
    say(out, v.source)?;
    say(out, v.down)?;
    say(out, v.rate)?;
    say(out, v.reserved)?;
    say(out, v.below)?;
    say(out, v.difference)
}

fn say_ground(out: &impl Print, b: Ground) -> io::Result<()> {
    say(out, b.typecode)?;
    say(out, b.subtype)?;
    say(out, b.bit9)?;
    say(out, b.bit10)?;
    say(out, b.nacv)?;
    say(out, b.west)?;
    say(out, b.eastward)?;
    say(out, b.south)?;
    say(out, b.northward)?;
    say_vertical(out, b.vertical)
}

fn say_air(out: &impl Print, b: Air) -> io::Result<()> {
    say(out, b.typecode)?;
    say(out, b.subtype)?;
    say(out, b.bit9)?;
    say(out, b.bit10)?;
    say(out, b.nacv)?;
    say(out, b.status)?;
    say(out, b.heading)?;
    say(out, b.airspeedkind)?;
    say(out, b.airspeed)?;
    say_vertical(out, b.vertical)
}

fn say_status(out: &impl Print, b: Status) -> io::Result<()> {
    say(out, b.typecode)?;
    say(out, b.subtype)?;
    say(out, b.class)?;
    say(out, b.bit20)?;
    say(out, b.width)?;
    say(out, b.mode)?;
    say(out, b.version)?;
    say(out, b.supplementa)?;
    say(out, b.nacp)?;
    say(out, b.bits49)?;
    say(out, b.sil)?;
    say(out, b.bit53)?;
    say(out, b.bit54)?;
    say(out, b.bits55)
}

fn say_coarse(out: &impl Print, b: Coarse) -> io::Result<()> {
    say(out, b.flag)?;
    say(out, b.surveillance)?;
    say(out, b.station)?;
    say(out, b.altitude)?;
    say(out, b.status)?;
    say(out, b.angle)?;
    say(out, b.speed)?;
    say(out, b.f)?;
    say(out, b.latitude.0)?;
    say(out, b.longitude.0)
}

fn say_body(out: &impl Print, b: Body) -> io::Result<()> {
    match b {
        Body::Identification(x) => say_identification(out, x),
        Body::Surface(x) => say_surface(out, x),
        Body::Airborne(x) => say_airborne(out, x),
        Body::Ground(x) => say_ground(out, x),
        Body::Air(x) => say_air(out, x),
        Body::Status(x) => say_status(out, x),
        Body::Coarse(x) => say_coarse(out, x),
    }
}

fn say_bytes(out: &impl Print, s: &[u8]) -> io::Result<()> {
    for b in s {
        print!(out; "{b:02X}")?;
    }
    Ok(())
}

fn say_encoded(out: &impl Print, m: Message) -> io::Result<()> {
    let mut bytes = [0u8; 14];
    match encoder::encode(m, &mut bytes) {
        Ok(()) => say_bytes(out, &bytes),
        Err(r) => say_refused(out, r),
    }
}

fn say_message(out: &impl Print, m: Message) -> io::Result<()> {
    say(out, m.format)?;
    say(out, m.control)?;
    say(out, m.address)?;
    say_body(out, m.body)?;
    say_encoded(out, m)
}

fn answer(out: &impl Print, s: &[u8]) -> io::Result<()> {
    match messages::decode(s) {
        Ok(m) => say_message(out, m),
        Err(r) => say_refused(out, r),
    }?;
    out.print("\n")
}

// The next field of a message made by hand; where the input has ended, 0.
fn field(input: &mut impl Read) -> io::Result<u64> {
    let mut b = [0u8; 8];
    streams::read_full(input, &mut b)?;
    Ok(fields::number_of(&b))
}

fn byte(input: &mut impl Read) -> io::Result<u8> {
    Ok((field(input)? % 256) as u8)
}

fn short(input: &mut impl Read) -> io::Result<u16> {
    Ok((field(input)? % 65536) as u16)
}

fn word(input: &mut impl Read) -> io::Result<u32> {
    Ok((field(input)? % 4294967296) as u32)
}

fn status(input: &mut impl Read) -> io::Result<Status> {
    let typecode = byte(input)?;
    let subtype = byte(input)?;
    let class = short(input)?;
    let bit20 = byte(input)?;
    let width = byte(input)?;
    let mode = short(input)?;
    let version = byte(input)?;
    let supplementa = byte(input)?;
    let nacp = byte(input)?;
    let bits49 = byte(input)?;
    let sil = byte(input)?;
    let bit53 = byte(input)?;
    let bit54 = byte(input)?;
    let bits55 = byte(input)?;
    Ok(Status {
        typecode,
        subtype,
        class,
        bit20,
        width,
        mode,
        version,
        supplementa,
        nacp,
        bits49,
        sil,
        bit53,
        bit54,
        bits55,
    })
}

fn coarse(input: &mut impl Read) -> io::Result<Coarse> {
    let flag = byte(input)?;
    let surveillance = byte(input)?;
    let station = byte(input)?;
    let altitude = short(input)?;
    let status = byte(input)?;
    let angle = byte(input)?;
    let speed = byte(input)?;
    let f = byte(input)?;
    let latitude = LatitudeCount(word(input)?);
    let longitude = LongitudeCount(word(input)?);
    Ok(Coarse {
        flag,
        surveillance,
        station,
        altitude,
        status,
        angle,
        speed,
        f,
        latitude,
        longitude,
    })
}

// A message made by hand: a status, or a coarse one.
fn answer_made(input: &mut impl Read, out: &impl Print, is_status: bool) -> io::Result<()> {
    let format = byte(input)?;
    let control = byte(input)?;
    let address = word(input)?;
    let body = if is_status {
        Body::Status(status(input)?)
    } else {
        Body::Coarse(coarse(input)?)
    };
    let made = Message {
        format,
        control,
        address,
        body,
    };
    say_encoded(out, made)?;
    out.print("\n")
}

// Answers one byte string, or one made by hand, and says whether there was one.
fn one(input: &mut impl Read, out: &impl Print) -> io::Result<bool> {
    let mut head = [0u8; 1];
    if streams::read_full(input, &mut head)? != 1 {
        return Ok(false);
    }
    let n = (fields::number_of(&head) % 256) as usize;
    if matches!(n, 253 | 254) {
        answer_made(input, out, n == 254)?;
        return Ok(true);
    }
    let mut space = [0u8; 256];
    let buf: &mut [u8] = &mut space;
    if streams::read_full(input, &mut buf[..n])? != n {
        return Ok(false);
    }
    answer(out, &buf[..n])?;
    Ok(true)
}

fn main(rt: HostRuntime) -> io::Result<()> {
    let mut input = rt.reader();
    for _ in 0..u64::MAX {
        if !one(&mut input, &rt)? {
            break;
        }
    }
    Ok(())
}
