// Runs `parity_words` on each byte string of standard input, two bytes of length and then the bytes, and writes its remainder and its seal.
#![tactic(auto)]

use std::io::{self, Read};

fn answer(out: &impl Print, s: &[u8]) -> io::Result<()> {
    let remainder = parity_words::remainder_of(s);
    let seal = parity_words::seal_by(remainder);
    println!(out; "{remainder:06x} {seal:06x}")
}

// Answers one byte string, and says whether there was one.
fn one(input: &mut impl Read, out: &impl Print) -> io::Result<bool> {
    let mut head = [0u8; 2];
    if streams::read_full(input, &mut head)? != 2 {
        return Ok(false);
    }
    let n = (fields::number_of(&head) % 513) as usize;
    let mut space = [0u8; 512];
    let buf: &mut [u8] = &mut space;
    if streams::read_full(input, &mut buf[..n])? != n {
        return Ok(false);
    }
    answer(out, &buf[..n])?;
    Ok(true)
}

fn main(rt: HostRuntime) -> io::Result<()> {
    let mut input = rt.reader();
    for _ in 0..u64::MAX {
        if !one(&mut input, &rt)? {
            break;
        }
    }
    Ok(())
}
