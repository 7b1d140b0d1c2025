//! Times a line of the greatest length, of pseudo-random bytes: read to its event, and printed,
//! beside a plain copy of its text and beside its digits alone by `hex`; then the same line with a
//! fault at its end, a line of very many parts, and very many short lines. Without a word behind
//! the program's name it does nothing.
#![tactic(auto)]

use blob_words::{NoMemory, Octets};
use session_script::{Event, print_event, read_line};
use std::alloc::Global;
use std::env;
use std::time::Instant;

// How often each is done.
const ROUNDS: u32 = 64;

const FRONT: &[u8] = b"data 1 00000000-0000-0000-0000-000000000001 0 ";

const BUILD: &[u8] = b"build 1 00000000-0000-0000-0000-000000000001 -";

const SHORT: &[u8] = b"drop 1 00000000-0000-0000-0000-000000000001";

// The bytes of a line of 1 MiB: their digits are all of it but the front.
const BYTES: u32 = (1 << 19) - 64;

// Bytes by xorshift, the middle one of each number.
fn noise(alloc: Global) -> Result<Octets, NoMemory> {
    let mut bytes = Octets::new(alloc);
    let mut state: u32 = 2_463_534_242;
    for _ in 0..BYTES {
        state ^= state << 13;
        state ^= state >> 17;
        state ^= state << 5;
        bytes.push(state.to_le_bytes()[1])?;
    }
    Ok(bytes)
}

fn report(rt: &HostRuntime, what: &str, start: Instant, bytes: usize) -> anyhow::Result<()> {
    let took = start.elapsed(rt)?.as_micros().max(1);
    let speed = bytes as u128 / took;
    println!(rt; "{what}: {took} us, {speed} MB/s of text")?;
    Ok(())
}

// A line with another last digit, which is none.
fn spoiled(alloc: Global, line: &[u8]) -> Result<Octets, NoMemory> {
    let mut other = Octets::new(alloc);
    if let Some((_, front)) = line.split_last() {
        other.extend_from_slice(front)?;
    }
    other.push(b'g')?;
    Ok(other)
}

// The line of a build of a thousand parts of one byte.
fn many_parts(alloc: Global) -> Result<Octets, NoMemory> {
    let mut line = Octets::from_slice(alloc, BUILD)?;
    for _ in 0..1_000 {
        line.extend_from_slice(b" b:61")?;
    }
    Ok(line)
}

fn time_reading(rt: &HostRuntime, what: &str, line: &[u8], rounds: u32) -> anyhow::Result<()> {
    let start = Instant::now(rt)?;
    let mut sum: usize = 0;
    for _ in 0..rounds {
        if read_line(rt.alloc(), line).is_ok() {
            sum = sum.wrapping_add(line.len());
        }
    }
    report(rt, what, start, sum)
}

fn time_refusing(rt: &HostRuntime, line: &[u8]) -> anyhow::Result<()> {
    let start = Instant::now(rt)?;
    let mut sum: usize = 0;
    for _ in 0..ROUNDS {
        if read_line(rt.alloc(), line).is_err() {
            sum = sum.wrapping_add(line.len());
        }
    }
    report(rt, "refused for the last digit", start, sum)
}

fn time_printing(rt: &HostRuntime, event: &Event) -> anyhow::Result<()> {
    let start = Instant::now(rt)?;
    let mut sum: usize = 0;
    for _ in 0..ROUNDS {
        let mut out = Octets::new(rt.alloc());
        print_event(rt.alloc(), event, &mut out)?;
        sum = sum.wrapping_add(out.len());
    }
    report(rt, "printed", start, sum)
}

fn time_copying(rt: &HostRuntime, line: &[u8]) -> anyhow::Result<()> {
    let start = Instant::now(rt)?;
    let mut sum: usize = 0;
    for _ in 0..ROUNDS {
        let copy = Octets::from_slice(rt.alloc(), line)?;
        sum = sum.wrapping_add(copy.len());
    }
    report(rt, "copied", start, sum)
}

fn time_digits(rt: &HostRuntime, text: &[u8]) -> anyhow::Result<()> {
    let start = Instant::now(rt)?;
    let mut sum: usize = 0;
    for _ in 0..ROUNDS {
        let bytes = hex::decode(rt.alloc(), text)?;
        let encoded = hex::encode(rt.alloc(), bytes.as_slice())?;
        sum = sum.wrapping_add(encoded.len());
    }
    report(rt, "decoded and encoded by hex alone", start, sum)
}

// Times all of a line of the greatest length, whose digits are these.
fn time_long(rt: &HostRuntime, text: &[u8]) -> anyhow::Result<()> {
    let mut line = Octets::from_slice(rt.alloc(), FRONT)?;
    line.extend_from_slice(text)?;
    let event = read_line(rt.alloc(), line.as_slice())?;
    let bad = spoiled(rt.alloc(), line.as_slice())?;
    for _ in 0..3 {
        time_reading(rt, "read", line.as_slice(), ROUNDS)?;
        time_printing(rt, &event)?;
        time_copying(rt, line.as_slice())?;
        time_digits(rt, text)?;
        time_refusing(rt, bad.as_slice())?;
    }
    Ok(())
}

// Times lines of many parts, and short ones.
fn time_others(rt: &HostRuntime) -> anyhow::Result<()> {
    let parts = many_parts(rt.alloc())?;
    for _ in 0..3 {
        time_reading(rt, "read, 1,000 parts each", parts.as_slice(), 10_000)?;
        time_reading(rt, "read, 2^20 short lines", SHORT, 1 << 20)?;
    }
    Ok(())
}

fn main(rt: HostRuntime) -> anyhow::Result<()> {
    let words = env::args(&rt)?;
    if words.len() < 2 {
        return Ok(());
    }
    let bytes = noise(rt.alloc())?;
    let text = hex::encode(rt.alloc(), bytes.as_slice())?;
    time_long(&rt, text.as_bytes())?;
    time_others(&rt)
}
