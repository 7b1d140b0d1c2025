//! Bytes, as pairs of hexadecimal digits in lower case; `-` stands for none.

ghost use Rattle.std.specs.Prelude.{◌≡◌, ◌≤◌, ◌<◌, ℕ, length, refl, vec_len, IfOk};
ghost use Rattle.hex.specs.Hex.{IsBytes, encode_lower};
ghost use Rattle.text_fields.specs.Fields.{hex_text};
ghost use Rattle.text_fields.specs.Kind.{bytes, content_type, some_bytes, IsFaultOf};
ghost use Rattle.text_fields.specs.Kind.{IsContentType};
ghost use Rattle.text_fields.specs.Output.{IsPutTo};
ghost use Rattle.text_fields.specs.Reading.{IsReading};

use crate::buffer::Buffer;
use crate::field::{Field, Spell};
use crate::line_fault::LineFault;
use blob_source::Sink;
use blob_words::{Failed, Octets};
use hex_lanes::decode_into;
use std::alloc::{AllocError, Global};

/// The most bytes that are turned into digits at once.
const CHUNK: usize = 1024;

/// The most bytes of a content type.
const MAX_CONTENT_TYPE: usize = 255;

/// A content type: at most 255 bytes.
#[derive(Debug, Drop)]
pub struct ContentType(pub Octets);

/// Bytes, at least one.
#[derive(Debug, Drop)]
pub struct SomeOctets(pub Octets);

// As many zeros, to be written over.
fn zeros(alloc: Global, count: usize) -> Result<Vec<u8>, AllocError>
    ensures { IfOk result (λ zeros. vec_len zeros ≡ count) }
{
    vec![in alloc; 0u8; count]
}

fn read_hex(alloc: Global, text: &[u8]) -> Result<Octets, LineFault>
    ensures { IsReading (IsFaultOf bytes) IsBytes hex_text text.now result }
{
    if text == b"-".as_slice() {
        return Ok(Octets::new(alloc));
    }
    if text.is_empty() {
        return Err(LineFault::Hex);
    }
    if text.len() % 2 == 1 {
        return Err(LineFault::Hex);
    }
    match zeros(alloc, text.len() / 2) {
        Ok(mut bytes) => {
            if !decode_into(text, bytes.as_mut_slice()) {
                return Err(LineFault::Hex);
            }
            Ok(Octets::from_vec(bytes))
        }
        Err(_) => Err(LineFault::Memory),
    }
}

fn put_hex<K: Sink>(buffer: &mut Buffer, out: &mut K, bytes: &[u8]) -> Result<(), Failed>
    ensures { IsPutTo K.Sink out.old out.new buffer.old buffer.new (hex_text bytes.now) result }
{
    if bytes.is_empty() {
        return buffer.put_byte(out, b'-');
    }
    put_digits(buffer, out, bytes)
}

fn put_digits<K: Sink>(buffer: &mut Buffer, out: &mut K, bytes: &[u8]) -> Result<(), Failed>
    ensures { IsPutTo K.Sink out.old out.new buffer.old buffer.new (encode_lower bytes.now) result }
{
    let mut rest = bytes;
    while !rest.is_empty() {
        let (chunk, after) = rest.split_at(rest.len().min(CHUNK));
        match buffer.put_digits(out, chunk) {
            Ok(()) => {}
            Err(Failed) => return Err(Failed),
        }
        rest = after;
    }
    Ok(())
}

impl Spell for Octets {
    ghost spell = { hex_text };

    fn put<K: Sink>(&self, buffer: &mut Buffer, out: &mut K) -> Result<(), Failed> {
        put_hex(buffer, out, self.as_slice())
    }
}

impl Field for Octets {
    ghost kind = { bytes };

    ghost Fits = { IsBytes };

    ghost spelled = { λ value fits. (value, fits, refl) };

    fn read(alloc: Global, text: &[u8]) -> Result<Self, LineFault> {
        read_hex(alloc, text)
    }
}

impl Spell for ContentType {
    ghost spell = { λ kind. hex_text kind.0 };

    fn put<K: Sink>(&self, buffer: &mut Buffer, out: &mut K) -> Result<(), Failed> {
        put_hex(buffer, out, self.0.as_slice())
    }
}

impl Field for ContentType {
    ghost kind = { content_type };

    ghost Fits = { λ kind. IsContentType kind.0 };

    ghost spelled = { λ kind fits. (kind.0, fits.0, fits.1, refl) };

    fn read(alloc: Global, text: &[u8]) -> Result<Self, LineFault> {
        match read_hex(alloc, text) {
            Ok(bytes) => {
                if bytes.len() > MAX_CONTENT_TYPE {
                    return Err(LineFault::Type);
                }
                Ok(ContentType(bytes))
            }
            Err(fault) => Err(fault),
        }
    }
}

impl Spell for SomeOctets {
    ghost spell = { λ value. hex_text value.0 };

    fn put<K: Sink>(&self, buffer: &mut Buffer, out: &mut K) -> Result<(), Failed> {
        put_hex(buffer, out, self.0.as_slice())
    }
}

impl Field for SomeOctets {
    ghost kind = { some_bytes };

    ghost Fits = { λ value. IsBytes value.0 × (0 < length value.0) };

    ghost spelled = { λ value fits. (value.0, fits.0, fits.1, refl) };

    fn read(alloc: Global, text: &[u8]) -> Result<Self, LineFault> {
        match read_hex(alloc, text) {
            Ok(bytes) => {
                if bytes.len() == 0 {
                    return Err(LineFault::Hex);
                }
                Ok(SomeOctets(bytes))
            }
            Err(fault) => Err(fault),
        }
    }
}
