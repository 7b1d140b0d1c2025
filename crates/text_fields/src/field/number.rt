//! Numbers in decimal digits.

ghost use Rattle.std.specs.Prelude.{◌≡◌, ◌==◌, ◌&&◌, ◌||◌, ℕ, ◌^◌, ◌<◌, ◌≤◌, not, length};
ghost use Rattle.std.specs.Prelude.{slice_index, decimal, refl, IfSome, FitsSigned};
ghost use Rattle.std.specs.Fmt.{signed_decimal};
ghost use Rattle.std.specs.Int.{w64};
ghost use Rattle.text_fields.specs.Fields.{len_text, place_text};
ghost use Rattle.text_fields.specs.Kind.{number_32, number_64, positive, len, place, IsFaultOf};
ghost use Rattle.text_fields.specs.Output.{IsPutTo};
ghost use Rattle.text_fields.specs.Reading.{is_plain_number, IsExact, IsSignedFault};

use crate::buffer::Buffer;
use crate::field::{Field, Spell};
use crate::line_fault::LineFault;
use blob_source::Sink;
use blob_words::{Failed, JobNo, PageNo, PieceNo, ReaderId, RendererId};
use std::alloc::Global;
use std::str;

/// A number that is at least 1.
#[derive(Clone, Copy, Debug, PartialEq, Eq)]
pub struct Positive(pub u64);

// Whether digits have no sign, and no zero in front of further digits.
fn is_plain_number(text: &[u8]) -> bool
    ensures { result ≡ is_plain_number text.now }
{
    if text.is_empty() {
        return true;
    }
    text[0] != b'+' && (text[0] != b'0' || text.len() == 1)
}

fn read_number(text: &[u8]) -> Result<u64, LineFault>
    ensures { IsExact (IsFaultOf number_64) (λ n. n < 2 ^ 64) decimal text.now result }
{
    if !is_plain_number(text) {
        return Err(LineFault::Number);
    }
    let Ok(digits) = str::from_utf8(text) else {
        return Err(LineFault::Number);
    };
    match digits.parse::<u64>() {
        Ok(number) => Ok(number),
        Err(_) => Err(LineFault::Number),
    }
}

fn read_number_32(text: &[u8]) -> Result<u32, LineFault>
    ensures { IsExact (IsFaultOf number_32) (λ n. n < 2 ^ 32) decimal text.now result }
{
    match read_number(text) {
        Ok(number) => {
            if number > u64::from(u32::MAX) {
                return Err(LineFault::Number);
            }
            Ok(number as u32)
        }
        Err(_) => Err(LineFault::Number),
    }
}

fn read_positive(text: &[u8]) -> Result<u64, LineFault>
    ensures { IsExact (IsFaultOf positive) (λ n. (1 ≤ n) × (n < 2 ^ 64)) decimal text.now result }
{
    match read_number(text) {
        Ok(number) => {
            if number == 0 {
                return Err(LineFault::Number);
            }
            Ok(number)
        }
        Err(_) => Err(LineFault::Number),
    }
}

fn read_len(text: &[u8]) -> Result<Option<u64>, LineFault>
    ensures { IsExact (IsFaultOf len)
        (λ value. IfSome value (λ n. n < 2 ^ 64)) len_text text.now result }
{
    if text == b"_".as_slice() {
        return Ok(None);
    }
    match read_number(text) {
        Ok(number) => Ok(Some(number)),
        Err(_) => Err(LineFault::Number),
    }
}

// The number of digits with a sign or none, where no `-` stands in front of a single `0`.
fn read_signed(text: &[u8]) -> Result<i64, LineFault>
    ensures { IsExact IsSignedFault (λ z. FitsSigned w64 z) signed_decimal text.now result }
{
    let Ok(digits) = str::from_utf8(text) else {
        return Err(LineFault::Number);
    };
    match digits.parse::<i64>() {
        Ok(number) => {
            let mut printed = itoa::Buffer::new();
            if printed.format(number).as_bytes() == text {
                return Ok(number);
            }
            Err(LineFault::Number)
        }
        Err(_) => Err(LineFault::Number),
    }
}

fn read_place(text: &[u8]) -> Result<Option<i64>, LineFault>
    ensures { IsExact (IsFaultOf place)
        (λ value. IfSome value (λ z. FitsSigned w64 z)) place_text text.now result }
{
    if text == b"_".as_slice() {
        return Ok(None);
    }
    match read_signed(text) {
        Ok(number) => Ok(Some(number)),
        Err(_) => Err(LineFault::Number),
    }
}

fn put_number<K: Sink>(buffer: &mut Buffer, out: &mut K, number: u64) -> Result<(), Failed>
    ensures { IsPutTo K.Sink out.old out.new buffer.old buffer.new (decimal number) result }
{
    let mut digits = itoa::Buffer::new();
    buffer.put(out, digits.format(number).as_bytes())
}

fn put_signed<K: Sink>(buffer: &mut Buffer, out: &mut K, number: i64) -> Result<(), Failed>
    ensures { IsPutTo K.Sink out.old out.new buffer.old buffer.new (signed_decimal number) result }
{
    let mut digits = itoa::Buffer::new();
    buffer.put(out, digits.format(number).as_bytes())
}

impl Spell for u64 {
    ghost spell = { decimal };

    fn put<K: Sink>(&self, buffer: &mut Buffer, out: &mut K) -> Result<(), Failed> {
        put_number(buffer, out, *self)
    }
}

impl Field for u64 {
    ghost kind = { number_64 };

    ghost Fits = { λ n. n < 2 ^ 64 };

    ghost spelled = { λ n fits. (n, fits, refl) };

    fn read(_alloc: Global, text: &[u8]) -> Result<Self, LineFault> {
        read_number(text)
    }
}

impl Spell for u32 {
    ghost spell = { decimal };

    fn put<K: Sink>(&self, buffer: &mut Buffer, out: &mut K) -> Result<(), Failed> {
        put_number(buffer, out, u64::from(*self))
    }
}

impl Field for u32 {
    ghost kind = { number_32 };

    ghost Fits = { λ n. n < 2 ^ 32 };

    ghost spelled = { λ n fits. (n, fits, refl) };

    fn read(_alloc: Global, text: &[u8]) -> Result<Self, LineFault> {
        read_number_32(text)
    }
}

impl Spell for Positive {
    ghost spell = { λ n. decimal n.0 };

    fn put<K: Sink>(&self, buffer: &mut Buffer, out: &mut K) -> Result<(), Failed> {
        put_number(buffer, out, self.0)
    }
}

impl Field for Positive {
    ghost kind = { positive };

    ghost Fits = { λ n. (1 ≤ n.0) × (n.0 < 2 ^ 64) };

    ghost spelled = { λ n fits. (n.0, fits.0, fits.1, refl) };

    fn read(_alloc: Global, text: &[u8]) -> Result<Self, LineFault> {
        match read_positive(text) {
            Ok(number) => Ok(Positive(number)),
            Err(fault) => Err(fault),
        }
    }
}

impl Spell for Option<u64> {
    ghost spell = { len_text };

    fn put<K: Sink>(&self, buffer: &mut Buffer, out: &mut K) -> Result<(), Failed> {
        match *self {
            Some(number) => put_number(buffer, out, number),
            None => buffer.put_byte(out, b'_'),
        }
    }
}

impl Field for Option<u64> {
    ghost kind = { len };

    ghost Fits = { λ value. IfSome value (λ n. n < 2 ^ 64) };

    ghost spelled = { λ value fits. (value, fits, refl) };

    fn read(_alloc: Global, text: &[u8]) -> Result<Self, LineFault> {
        read_len(text)
    }
}

impl Spell for Option<i64> {
    ghost spell = { place_text };

    fn put<K: Sink>(&self, buffer: &mut Buffer, out: &mut K) -> Result<(), Failed> {
        match *self {
            Some(number) => put_signed(buffer, out, number),
            None => buffer.put_byte(out, b'_'),
        }
    }
}

impl Field for Option<i64> {
    ghost kind = { place };

    ghost Fits = { λ value. IfSome value (λ z. FitsSigned w64 z) };

    ghost spelled = { λ value fits. (value, fits, refl) };

    fn read(_alloc: Global, text: &[u8]) -> Result<Self, LineFault> {
        read_place(text)
    }
}

impl Spell for RendererId {
    ghost spell = { λ n. decimal n.0 };

    fn put<K: Sink>(&self, buffer: &mut Buffer, out: &mut K) -> Result<(), Failed> {
        put_number(buffer, out, u64::from(self.0))
    }
}

impl Field for RendererId {
    ghost kind = { number_32 };

    ghost Fits = { λ n. n.0 < 2 ^ 32 };

    ghost spelled = { λ n fits. (n.0, fits, refl) };

    fn read(_alloc: Global, text: &[u8]) -> Result<Self, LineFault> {
        match read_number_32(text) {
            Ok(number) => Ok(RendererId(number)),
            Err(fault) => Err(fault),
        }
    }
}

impl Spell for ReaderId {
    ghost spell = { λ n. decimal n.0 };

    fn put<K: Sink>(&self, buffer: &mut Buffer, out: &mut K) -> Result<(), Failed> {
        put_number(buffer, out, u64::from(self.0))
    }
}

impl Field for ReaderId {
    ghost kind = { number_32 };

    ghost Fits = { λ n. n.0 < 2 ^ 32 };

    ghost spelled = { λ n fits. (n.0, fits, refl) };

    fn read(_alloc: Global, text: &[u8]) -> Result<Self, LineFault> {
        match read_number_32(text) {
            Ok(number) => Ok(ReaderId(number)),
            Err(fault) => Err(fault),
        }
    }
}

impl Spell for JobNo {
    ghost spell = { λ n. decimal n.0 };

    fn put<K: Sink>(&self, buffer: &mut Buffer, out: &mut K) -> Result<(), Failed> {
        put_number(buffer, out, u64::from(self.0))
    }
}

impl Field for JobNo {
    ghost kind = { number_32 };

    ghost Fits = { λ n. n.0 < 2 ^ 32 };

    ghost spelled = { λ n fits. (n.0, fits, refl) };

    fn read(_alloc: Global, text: &[u8]) -> Result<Self, LineFault> {
        match read_number_32(text) {
            Ok(number) => Ok(JobNo(number)),
            Err(fault) => Err(fault),
        }
    }
}

impl Spell for PageNo {
    ghost spell = { λ n. decimal n.0 };

    fn put<K: Sink>(&self, buffer: &mut Buffer, out: &mut K) -> Result<(), Failed> {
        put_number(buffer, out, u64::from(self.0))
    }
}

impl Field for PageNo {
    ghost kind = { number_32 };

    ghost Fits = { λ n. n.0 < 2 ^ 32 };

    ghost spelled = { λ n fits. (n.0, fits, refl) };

    fn read(_alloc: Global, text: &[u8]) -> Result<Self, LineFault> {
        match read_number_32(text) {
            Ok(number) => Ok(PageNo(number)),
            Err(fault) => Err(fault),
        }
    }
}

impl Spell for PieceNo {
    ghost spell = { λ n. decimal n.0 };

    fn put<K: Sink>(&self, buffer: &mut Buffer, out: &mut K) -> Result<(), Failed> {
        put_number(buffer, out, u64::from(self.0))
    }
}

impl Field for PieceNo {
    ghost kind = { number_32 };

    ghost Fits = { λ n. n.0 < 2 ^ 32 };

    ghost spelled = { λ n fits. (n.0, fits, refl) };

    fn read(_alloc: Global, text: &[u8]) -> Result<Self, LineFault> {
        match read_number_32(text) {
            Ok(number) => Ok(PieceNo(number)),
            Err(fault) => Err(fault),
        }
    }
}
