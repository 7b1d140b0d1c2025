//! Bytes to digits.

ghost use Rattle.std.specs.Prelude.{◌≡◌, ◌*◌, length, map};
ghost use Rattle.hex.specs.Hex.{encode_lower};
ghost use Rattle.hex_lanes.specs.Digits.{high_digit, low_digit};

use std::simd::prelude::*;

// The bytes that a step takes.
const STEP: usize = 16;

const DIGITS: [u8; 16] = [
    48, 49, 50, 51, 52, 53, 54, 55, 56, 57, 97, 98, 99, 100, 101, 102,
];

#[inline(always)]
fn high_digits(bytes: u8x16) -> u8x16
    ensures { result ≡ map high_digit bytes }
{
    u8x16::from_array(DIGITS).swizzle_dyn(bytes >> u8x16::splat(4))
}

#[inline(always)]
fn low_digits(bytes: u8x16) -> u8x16
    ensures { result ≡ map low_digit bytes }
{
    u8x16::from_array(DIGITS).swizzle_dyn(bytes & u8x16::splat(15))
}

#[inline(always)]
fn encode_block(bytes: u8x16) -> u8x32
    ensures { result ≡ encode_lower bytes }
{
    high_digits(bytes).shuffle(
        low_digits(bytes),
        [
            0, 16, 1, 17, 2, 18, 3, 19, 4, 20, 5, 21, 6, 22, 7, 23, 8, 24, 9, 25, 10, 26, 11, 27,
            12, 28, 13, 29, 14, 30, 15, 31,
        ],
    )
}

/// Writes the digits of some bytes, two for each.
pub fn encode_into(bytes: &[u8], out: &mut [u8])
    requires { length out.old ≡ 2 * length bytes.now }
    ensures { out.new ≡ encode_lower bytes.now }
{
    let mut at = 0;
    while bytes.len() - at >= STEP {
        encode_block(u8x16::from_slice(&bytes[at..])).copy_to_slice(&mut out[2 * at..]);
        at += STEP;
    }
    let _ = hex::encode_to_slice(&bytes[at..], &mut out[2 * at..]);
}
