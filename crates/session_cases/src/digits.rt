//! Digits by vectors, beside the digits of `hex`.

ghost use Rattle.std.specs.Prelude.{◌≤◌, ◌<◌, length};

use hex_lanes::{decode_into, encode_into};
use std::alloc::Global;

// The most bytes: six steps, and a rest of the greatest length but one.
const LONGEST: usize = 99;

// All values of a byte, in an order that leaves none of a step alike.
fn mixed() -> [u8; LONGEST] {
    let mut bytes = [0; LONGEST];
    let mut next = 0u8;
    for byte in bytes.iter_mut() {
        *byte = next;
        next = next.wrapping_add(37);
    }
    bytes
}

// Whether the bytes have the digits that `hex` gives them, and these the bytes.
fn goes_both_ways(bytes: &[u8]) -> anyhow::Result<bool>
    requires { length bytes.now ≤ 99 }
{
    let n = bytes.len();
    let mut text = [0u8; 2 * LONGEST];
    let mut wanted = [0u8; 2 * LONGEST];
    let mut back = [0u8; LONGEST];
    encode_into(bytes, &mut text[..2 * n]);
    hex::encode_to_slice(bytes, &mut wanted[..2 * n])?;
    let is_read = decode_into(&text[..2 * n], &mut back[..n]);
    Ok(is_read && text.as_slice() == wanted.as_slice() && &back[..n] == bytes)
}

/// `digits`: of how many lengths, from 0 to 99, bytes go both ways.
pub fn digits(alloc: Global) -> anyhow::Result<String> {
    let bytes = mixed();
    let mut count = 0u32;
    for n in 0..=LONGEST {
        if goes_both_ways(&bytes[..n])? {
            count = count.wrapping_add(1);
        }
    }
    Ok(format!(in alloc; "{count} lengths")?)
}

// How many bytes are digits at a place of 36, where all others are `7`.
fn digits_at(place: usize) -> u32
    requires { place < 36 }
{
    let mut count = 0u32;
    for value in 0..256u16 {
        let byte = value.to_le_bytes()[0];
        let mut text = [b'7'; 36];
        let mut out = [0; 18];
        text[place] = byte;
        let is_digit = byte.is_ascii_digit() || (b'a'..=b'f').contains(&byte);
        if decode_into(&text, &mut out) && is_digit {
            count = count.wrapping_add(1);
        }
    }
    count
}

/// `others`: of how many places of 36 just the digits are taken.
pub fn others(alloc: Global) -> anyhow::Result<String> {
    let mut places = 0u32;
    for place in 0..36usize {
        if digits_at(place) == 16 {
            places = places.wrapping_add(1);
        }
    }
    Ok(format!(in alloc; "{places} places")?)
}
