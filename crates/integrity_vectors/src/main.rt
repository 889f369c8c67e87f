// Runs `integrity` on each question of standard input and writes the answers, a line each: the version, the supplements A, B and C, and the integrity.
// A question is a byte with a kind in its low three bits, 1 to 6, and above them of C the flag and the station; one with TYPE, one that is 1 where bit 8 is set, and a status ME of eight bytes.
#![tactic(auto)]

use integrity::{Bits, Integrity};
use keys::Kind;
use refusals::Refusal;
use std::io::{self, Read};

fn say_refused(out: &impl Print, r: Refusal) -> io::Result<()> {
    print!(out; "refused {}", refusals::number(r))
}

fn say_version(out: &impl Print, v: Result<u8, Refusal>) -> io::Result<()> {
    match v {
        Ok(n) => out.print(n),
        Err(r) => say_refused(out, r),
    }
}

fn say_supplements(out: &impl Print, s: Result<Bits, Refusal>) -> io::Result<()> {
    match s {
        Ok(b) => print!(out; "{} {} {}", u8::from(b.a), u8::from(b.b), u8::from(b.c)),
        Err(r) => say_refused(out, r),
    }
}

fn say_integrity(out: &impl Print, i: Result<Integrity, Refusal>) -> io::Result<()> {
    match i {
        Ok(Integrity::Unknown) => out.print("unknown"),
        Ok(Integrity::Nuc(n)) => print!(out; "NUC {n}"),
        Ok(Integrity::Nic(n)) => print!(out; "NIC {n}"),
        Err(r) => say_refused(out, r),
    }
}

fn kind_of(number: u8) -> Kind {
    if number % 8 == 6 {
        return Kind::C(number / 128, number / 8 % 16);
    }
    keys::kind_at(u32::from(number % 8))
}

fn answer(out: &impl Print, number: u8, typecode: u8, bit8: bool, status: u64) -> io::Result<()> {
    let kind = kind_of(number);
    say_version(out, integrity::version_of(kind, status))?;
    out.print(", ")?;
    say_supplements(out, integrity::supplements_of(kind, status, bit8))?;
    out.print(", ")?;
    say_integrity(out, integrity::integrity_of(kind, status, typecode, bit8))?;
    out.print("\n")
}

// Answers one question, and says whether there was one.
fn one(input: &mut impl Read, out: &impl Print) -> io::Result<bool> {
    let mut q = [0u8; 11];
    if streams::read_full(input, &mut q)? != 11 {
        return Ok(false);
    }
    let status = fields::number_of(&q[3..11]);
    answer(out, q[0], q[1], q[2] == 1, status)?;
    Ok(true)
}

fn main(rt: HostRuntime) -> io::Result<()> {
    let mut input = rt.reader();
    for _ in 0..u64::MAX {
        if !one(&mut input, &rt)? {
            break;
        }
    }
    Ok(())
}
