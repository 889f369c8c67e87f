// Runs `readings` on each question of standard input, five bytes each, and writes the answers, a line each. Behind a question of a whole body stand its fields, eight bytes each.
#![tactic(auto)]

use characters::CategorySet;
use counts::{LatitudeCount, LongitudeCount};
use layouts::{Air, Airborne, Body, Coarse, Ground, Identification, Status, Surface, Vertical};
use readings::{
    AirReadings, AirborneReadings, Altitude, CoarseReadings, CoarseSpeed, Difference,
    GroundReadings, IdentificationReadings, Movement, Rate, Readings, Speed, StatusReadings,
    SurfaceReadings,
};
use refusals::Refusal;
use std::io::{self, Read};

fn say_signed(out: &impl Print, z: i32) -> io::Result<()> {
    let wide = signs::widen(z);
    if signs::is_below(wide) {
        out.print("-")?;
    }
    out.print(signs::size_of(wide))
}

fn say_refused(out: &impl Print, r: Refusal) -> io::Result<()> {
    print!(out; "refused {}", refusals::number(r))
}

fn say_altitude(out: &impl Print, a: Result<Option<Altitude>, Refusal>) -> io::Result<()> {
    match a {
        Ok(Some(a)) => {
            say_signed(out, a.feet)?;
            print!(out; " step {}", a.step)
        }
        Ok(None) => out.print("unknown"),
        Err(r) => say_refused(out, r),
    }
}

fn say_category_set(out: &impl Print, s: Result<Option<CategorySet>, Refusal>) -> io::Result<()> {
    match s {
        Ok(Some(CategorySet::A)) => out.print("A"),
        Ok(Some(CategorySet::B)) => out.print("B"),
        Ok(Some(CategorySet::C)) => out.print("C"),
        Ok(Some(CategorySet::D)) => out.print("D"),
        Ok(None) => out.print("none"),
        Err(r) => say_refused(out, r),
    }
}

fn say_speed(out: &impl Print, s: Result<Speed, Refusal>) -> io::Result<()> {
    match s {
        Ok(Speed::Unknown) => out.print("unknown"),
        Ok(Speed::Knots(z)) => say_signed(out, z),
        Ok(Speed::Over) => out.print("over"),
        Err(r) => say_refused(out, r),
    }
}

fn say_rate(out: &impl Print, s: Result<Rate, Refusal>) -> io::Result<()> {
    match s {
        Ok(Rate::Unknown) => out.print("unknown"),
        Ok(Rate::FeetPerMinute(z)) => say_signed(out, z),
        Ok(Rate::Over) => out.print("over"),
        Err(r) => say_refused(out, r),
    }
}

fn say_difference(out: &impl Print, d: Result<Difference, Refusal>) -> io::Result<()> {
    match d {
        Ok(Difference::Unknown) => out.print("unknown"),
        Ok(Difference::Feet(z)) => say_signed(out, z),
        Ok(Difference::Over) => out.print("over"),
        Err(r) => say_refused(out, r),
    }
}

fn say_heading(out: &impl Print, h: Result<u32, Refusal>) -> io::Result<()> {
    match h {
        Ok(n) => out.print(n),
        Err(r) => say_refused(out, r),
    }
}

fn say_movement(out: &impl Print, m: Result<Movement, Refusal>) -> io::Result<()> {
    match m {
        Ok(Movement::Unknown) => out.print("unknown"),
        Ok(Movement::Stopped) => out.print("stopped"),
        Ok(Movement::LowerEdge(n)) => print!(out; "from {n}"),
        Ok(Movement::AndUp(n)) => print!(out; "{n} and up"),
        Ok(Movement::Reserved) => out.print("reserved"),
        Err(r) => say_refused(out, r),
    }
}

fn say_coarse_speed(out: &impl Print, s: Result<CoarseSpeed, Refusal>) -> io::Result<()> {
    match s {
        Ok(CoarseSpeed::Unknown) => out.print("unknown"),
        Ok(CoarseSpeed::LowerEdge(n)) => print!(out; "from {n}"),
        Ok(CoarseSpeed::AndUp(n)) => print!(out; "{n} and up"),
        Err(r) => say_refused(out, r),
    }
}

fn say_character(out: &impl Print, c: Result<u8, Refusal>) -> io::Result<()> {
    match c {
        Ok(b) => out.print(b),
        Err(r) => say_refused(out, r),
    }
}

fn say_identification(out: &impl Print, m: IdentificationReadings) -> io::Result<()> {
    out.print("identification ")?;
    say_category_set(out, Ok(m.set))?;
    out.print(", ")?;
    out.print(m.text)
}

fn say_surface(out: &impl Print, m: SurfaceReadings) -> io::Result<()> {
    out.print("surface ")?;
    say_movement(out, Ok(m.movement))?;
    out.print(", ")?;
    out.print(m.heading)
}

fn say_airborne(out: &impl Print, m: AirborneReadings) -> io::Result<()> {
    out.print("airborne ")?;
    say_altitude(out, Ok(m.altitude))?;
    out.print(if m.gnss { ", GNSS" } else { ", pressure" })
}

fn say_vertical(out: &impl Print, rate: Rate, difference: Difference) -> io::Result<()> {
    out.print(", ")?;
    say_rate(out, Ok(rate))?;
    out.print(", ")?;
    say_difference(out, Ok(difference))
}

fn say_ground(out: &impl Print, m: GroundReadings) -> io::Result<()> {
    out.print("ground ")?;
    say_speed(out, Ok(m.east))?;
    out.print(", ")?;
    say_speed(out, Ok(m.north))?;
    say_vertical(out, m.rate, m.difference)
}

fn say_air(out: &impl Print, m: AirReadings) -> io::Result<()> {
    out.print("air ")?;
    out.print(m.heading)?;
    out.print(", ")?;
    say_speed(out, Ok(m.airspeed))?;
    say_vertical(out, m.rate, m.difference)
}

fn say_version(out: &impl Print, v: Option<u8>) -> io::Result<()> {
    match v {
        Some(n) => out.print(n),
        None => out.print("reserved"),
    }
}

fn say_supplement(out: &impl Print, s: Option<u8>) -> io::Result<()> {
    match s {
        None => out.print("unknown"),
        Some(n) => out.print(n),
    }
}

fn say_status(out: &impl Print, m: StatusReadings) -> io::Result<()> {
    out.print("status ")?;
    say_version(out, m.version)?;
    out.print(", ")?;
    say_supplement(out, m.supplementa)?;
    out.print(", ")?;
    say_supplement(out, m.supplementc)
}

fn say_coarse(out: &impl Print, m: CoarseReadings) -> io::Result<()> {
    out.print("coarse ")?;
    say_altitude(out, Ok(m.altitude))?;
    out.print(", ")?;
    out.print(m.angle)?;
    out.print(", ")?;
    say_coarse_speed(out, Ok(m.speed))
}

fn say_readings(out: &impl Print, r: Result<Readings, Refusal>) -> io::Result<()> {
    match r {
        Ok(Readings::Identification(m)) => say_identification(out, m),
        Ok(Readings::Surface(m)) => say_surface(out, m),
        Ok(Readings::Airborne(m)) => say_airborne(out, m),
        Ok(Readings::Ground(m)) => say_ground(out, m),
        Ok(Readings::Air(m)) => say_air(out, m),
        Ok(Readings::Status(m)) => say_status(out, m),
        Ok(Readings::Coarse(m)) => say_coarse(out, m),
        Err(r) => say_refused(out, r),
    }
}

// The field i of the 15 that stand behind a question.
fn field(q: &[u8], i: usize) -> u64 {
    if 15 <= i {
        return 0;
    }
    let from = 8 * i;
    let to = from + 8;
    if q.len() < to {
        return 0;
    }
    fields::number_of(&q[from..to])
}

fn byte(q: &[u8], i: usize) -> u8 {
    (field(q, i) % 256) as u8
}

fn short(q: &[u8], i: usize) -> u16 {
    (field(q, i) % 65536) as u16
}

fn word(q: &[u8], i: usize) -> u32 {
    (field(q, i) % 4294967296) as u32
}

fn identification(q: &[u8]) -> Body {
    Body::Identification(Identification {
        typecode: byte(q, 0),
        category: byte(q, 1),
        characters: field(q, 2),
    })
}

fn surface(q: &[u8]) -> Body {
    Body::Surface(Surface {
        typecode: byte(q, 0),
        movement: byte(q, 1),
        status: byte(q, 2),
        heading: byte(q, 3),
        t: byte(q, 4),
        f: byte(q, 5),
        latitude: LatitudeCount(word(q, 6)),
        longitude: LongitudeCount(word(q, 7)),
    })
}

fn airborne(q: &[u8]) -> Body {
    Body::Airborne(Airborne {
        typecode: byte(q, 0),
        surveillance: byte(q, 1),
        bit8: byte(q, 2),
        altitude: short(q, 3),
        t: byte(q, 4),
        f: byte(q, 5),
        latitude: LatitudeCount(word(q, 6)),
        longitude: LongitudeCount(word(q, 7)),
    })
}

fn vertical(q: &[u8]) -> Vertical {
    Vertical {
        source: byte(q, 9),
        down: byte(q, 10),
        rate: short(q, 11),
        reserved: byte(q, 12),
        below: byte(q, 13),
        difference: byte(q, 14),
    }
}

fn ground(q: &[u8]) -> Body {
    Body::Ground(Ground {
        typecode: byte(q, 0),
        subtype: byte(q, 1),
        bit9: byte(q, 2),
        bit10: byte(q, 3),
        nacv: byte(q, 4),
        west: byte(q, 5),
        eastward: short(q, 6),
        south: byte(q, 7),
        northward: short(q, 8),
        vertical: vertical(q),
    })
}

fn air(q: &[u8]) -> Body {
    Body::Air(Air {
        typecode: byte(q, 0),
        subtype: byte(q, 1),
        bit9: byte(q, 2),
        bit10: byte(q, 3),
        nacv: byte(q, 4),
        status: byte(q, 5),
        heading: short(q, 6),
        airspeedkind: byte(q, 7),
        airspeed: short(q, 8),
        vertical: vertical(q),
    })
}

fn status(q: &[u8]) -> Body {
    Body::Status(Status {
        typecode: byte(q, 0),
        subtype: byte(q, 1),
        class: short(q, 2),
        bit20: byte(q, 3),
        width: byte(q, 4),
        mode: short(q, 5),
        version: byte(q, 6),
        supplementa: byte(q, 7),
        nacp: byte(q, 8),
        bits49: byte(q, 9),
        sil: byte(q, 10),
        bit53: byte(q, 11),
        bit54: byte(q, 12),
        bits55: byte(q, 13),
    })
}

fn coarse(q: &[u8]) -> Body {
    Body::Coarse(Coarse {
        flag: byte(q, 0),
        surveillance: byte(q, 1),
        station: byte(q, 2),
        altitude: short(q, 3),
        status: byte(q, 4),
        angle: byte(q, 5),
        speed: byte(q, 6),
        f: byte(q, 7),
        latitude: LatitudeCount(word(q, 8)),
        longitude: LongitudeCount(word(q, 9)),
    })
}

// What a body means, by the number of its layout, in a traffic service's message or in another.
fn say_body(out: &impl Print, layout: u8, traffic: bool, q: &[u8]) -> io::Result<()> {
    let body = match layout {
        0 => identification(q),
        1 => surface(q),
        2 => airborne(q),
        3 => ground(q),
        4 => air(q),
        5 => status(q),
        6 => coarse(q),
        _ => return out.print("no such layout"),
    };
    say_readings(out, readings::readings_of(body, traffic))
}

// Reads the fields of a body.
fn answer_body(
    input: &mut impl Read,
    out: &impl Print,
    layout: u8,
    traffic: bool,
) -> io::Result<()> {
    let mut q = [0u8; 120];
    if streams::read_full(input, &mut q)? != 120 {
        return out.print("too short");
    }
    say_body(out, layout, traffic, &q)
}

fn answer(
    input: &mut impl Read,
    out: &impl Print,
    question: u8,
    a: u8,
    b: u8,
    code: u16,
) -> io::Result<()> {
    let byte = (code % 256) as u8;
    match question {
        0 => say_altitude(out, readings::altitude_of(code)),
        1 => say_category_set(out, characters::category_set_of(byte)),
        2 => say_speed(out, readings::speed_of(a, b, code)),
        3 => say_rate(out, readings::rate_of(b, code)),
        4 => say_difference(out, readings::difference_of(b, byte)),
        5 => say_heading(out, readings::heading_of(code)),
        6 => say_heading(out, readings::surface_heading_of(byte)),
        7 => say_movement(out, readings::movement_of(byte)),
        8 => say_character(out, characters::character_of(byte)),
        9 => answer_body(input, out, a, b == 1),
        10 => say_heading(out, readings::angle_of(byte)),
        11 => say_coarse_speed(out, readings::coarse_speed_of(byte)),
        _ => out.print("no such question"),
    }?;
    out.print("\n")
}

// Answers one question, and says whether there was one.
fn one(input: &mut impl Read, out: &impl Print) -> io::Result<bool> {
    let mut q = [0u8; 5];
    if streams::read_full(input, &mut q)? != 5 {
        return Ok(false);
    }
    let code = (fields::number_of(&q[3..5]) % 0x1_0000) as u16;
    answer(input, out, q[0], q[1], q[2], code)?;
    Ok(true)
}

fn main(rt: HostRuntime) -> io::Result<()> {
    let mut input = rt.reader();
    for _ in 0..u64::MAX {
        if !one(&mut input, &rt)? {
            break;
        }
    }
    Ok(())
}
