// Answers questions about positions from standard input, 18 bytes each, with a line each.
//
// Byte 0 is the question: 0 encode airborne, 1 encode surface, 2 pair, 3 single airborne, 4 single surface, 5 to degrees,
// 6 from degrees. Byte 1 is F, and 2 more for coarse counts; for a pair it is F of the later message. Four numbers of four
// bytes follow, high byte first:
//   encode and to degrees: latitude and longitude; pair: the even counts, then the odd ones; single: the counts, then the
//   reference; from degrees: the bit patterns of latitude and longitude, of two numbers each.
// A latitude of a spot is signed, in two's complement. Degrees are written as bit patterns in hex.
#![tactic(auto)]

ghost use Rattle.std.specs.Prelude.{◌≤◌};

use counts::{LatitudeCount, LongitudeCount};
use degrees::Degrees;
use positions::{Counts, Format, Size, Spot, Turn};
use refusals::Refusal;
use std::io;

fn number(record: &[u8; 18], at: usize) -> u32
    requires { at ≤ 14 }
{
    u32::from_be_bytes([record[at], record[at + 1], record[at + 2], record[at + 3]])
}

fn spot_at(record: &[u8; 18], at: usize) -> Spot
    requires { at ≤ 10 }
{
    let latitude = number(record, at).cast_signed();
    let longitude = number(record, at + 4);
    Spot {
        latitude,
        longitude,
    }
}

fn counts_at(record: &[u8; 18], at: usize) -> Counts
    requires { at ≤ 10 }
{
    let latitude = LatitudeCount(number(record, at));
    let longitude = LongitudeCount(number(record, at + 4));
    Counts {
        latitude,
        longitude,
    }
}

// The double of a bit pattern. Of all those that are not a number Rattle has one.
fn double_of(pattern: u64) -> f64 {
    if 0x7ff0_0000_0000_0000 < pattern % 0x8000_0000_0000_0000 {
        return f64::NAN;
    }
    f64::from_bits(pattern)
}

fn double_at(record: &[u8; 18], at: usize) -> f64
    requires { at ≤ 10 }
{
    let high = u64::from(number(record, at));
    let low = u64::from(number(record, at + 4));
    double_of(high * 4294967296 + low)
}

fn degrees_at(record: &[u8; 18]) -> Degrees {
    let latitude = double_at(record, 2);
    let longitude = double_at(record, 10);
    Degrees {
        latitude,
        longitude,
    }
}

fn format_of(f: u8) -> Format {
    if f % 2 == 0 {
        Format::Even
    } else {
        Format::Odd
    }
}

fn size_of(f: u8) -> Size {
    if f < 2 { Size::Fine } else { Size::Coarse }
}

fn say_refusal(out: &impl Print, r: Refusal) -> io::Result<()> {
    print!(out; "refused {}", refusals::number(r))
}

fn say_encoded(out: &impl Print, e: Result<Counts, Refusal>) -> io::Result<()> {
    match e {
        Ok(c) => print!(out; "{} {}", c.latitude.0, c.longitude.0),
        Err(r) => say_refusal(out, r),
    }
}

fn say_found(out: &impl Print, f: Result<Spot, Refusal>) -> io::Result<()> {
    match f {
        Ok(s) => print!(out; "{} {}", s.latitude, s.longitude),
        Err(r) => say_refusal(out, r),
    }
}

fn say_double(out: &impl Print, x: f64) -> io::Result<()> {
    if x.is_nan() {
        return out.print("nan");
    }
    print!(out; "{:016x}", f64::to_bits(x))
}

fn say_degrees(out: &impl Print, a: Result<Degrees, Refusal>) -> io::Result<()> {
    match a {
        Ok(d) => {
            say_double(out, d.latitude)?;
            out.print(" ")?;
            say_double(out, d.longitude)
        }
        Err(r) => say_refusal(out, r),
    }
}

fn answer(out: &impl Print, record: &[u8; 18]) -> io::Result<()> {
    let question = record[0];
    let format = format_of(record[1]);
    let size = size_of(record[1]);
    match question {
        0 => say_encoded(
            out,
            positions::encode(size, spot_at(record, 2), Turn::Airborne, format),
        ),
        1 => say_encoded(
            out,
            positions::encode(size, spot_at(record, 2), Turn::Surface, format),
        ),
        2 => say_found(
            out,
            positions::pair(size, counts_at(record, 2), counts_at(record, 10), format),
        ),
        3 => say_found(
            out,
            positions::single(
                size,
                spot_at(record, 10),
                counts_at(record, 2),
                Turn::Airborne,
                format,
            ),
        ),
        4 => say_found(
            out,
            positions::single(
                size,
                spot_at(record, 10),
                counts_at(record, 2),
                Turn::Surface,
                format,
            ),
        ),
        5 => say_degrees(out, degrees::to_degrees(spot_at(record, 2))),
        _ => say_found(out, degrees::from_degrees(degrees_at(record))),
    }?;
    out.print("\n")
}

fn main(rt: HostRuntime) -> io::Result<()> {
    let mut input = rt.reader();
    let mut record = [0u8; 18];
    for _ in 0..1_000_000 {
        if streams::read_full(&mut input, &mut record)? < 18 {
            break;
        }
        answer(&rt, &record)?;
    }
    Ok(())
}
