//! Digits to bytes.

ghost use Rattle.std.specs.Prelude.{◌≡◌, ◌*◌, ◌↔◌, ℕ, ◌<◌, length, map, slice_index, IsTrue, Ok};
ghost use Rattle.std.specs.List.{AllPass};
ghost use Rattle.hex.specs.Hex.{decode_of, encode_lower};
ghost use Rattle.hex_lanes.specs.Digits.{digit_of, is_lower_digit, joined};

use std::simd::prelude::*;

// The bytes that a step writes.
const STEP: usize = 16;

// The digits' values, and 255 for any other byte.
#[inline(always)]
fn values(text: u8x32) -> u8x32
    ensures { result ≡ map digit_of text }
{
    let number = text - u8x32::splat(48);
    let letter = (text - u8x32::splat(97))
        .simd_le(u8x32::splat(5))
        .select(text - u8x32::splat(87), u8x32::splat(255));
    number.simd_le(u8x32::splat(9)).select(number, letter)
}

#[inline(always)]
fn are_small(values: u8x32) -> bool
    ensures { IsTrue result ↔ ((k : ℕ) → slice_index values k < 128) }
{
    values.simd_ge(u8x32::splat(128)).to_bitmask() == 0
}

// Each two values as one byte.
#[inline(always)]
fn join(values: u8x32) -> u8x16
    ensures { result ≡ joined values }
{
    let high: u8x16 = values.swizzle([0, 2, 4, 6, 8, 10, 12, 14, 16, 18, 20, 22, 24, 26, 28, 30]);
    let low: u8x16 = values.swizzle([1, 3, 5, 7, 9, 11, 13, 15, 17, 19, 21, 23, 25, 27, 29, 31]);
    high * u8x16::splat(16) + low
}

fn value(digit: u8) -> u8
    ensures { result ≡ digit_of digit }
{
    match digit {
        b'0'..=b'9' => digit - 48,
        b'a'..=b'f' => digit - 87,
        _ => 255,
    }
}

/// Whether a text is digits in lower case. Then `out` is the bytes that it spells.
pub fn decode_into(text: &[u8], out: &mut [u8]) -> bool
    requires { length text.now ≡ 2 * length out.old }
    ensures digits { IsTrue result ↔ AllPass is_lower_digit text.now }
    ensures spelled { IsTrue result → text.now ≡ encode_lower out.new }
    ensures decoded { IsTrue result → decode_of text.now ≡ Ok out.new }
{
    let mut at = 0;
    'blocks: while out.len() - at >= STEP {
        let values = values(u8x32::from_slice(&text[2 * at..]));
        if !are_small(values) {
            return false;
        }
        join(values).copy_to_slice(&mut out[at..]);
        at += STEP;
    }
    'rest: while at < out.len() {
        let (high, low) = (value(text[2 * at]), value(text[2 * at + 1]));
        if high == 255 || low == 255 {
            return false;
        }
        out[at] = high * 16 + low;
        at += 1;
    }
    true
}
