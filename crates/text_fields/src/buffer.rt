//! A buffer in front of a sink: what is put is written in pieces of at most 4,096 bytes.

ghost use Rattle.std.specs.Prelude.{◌≡◌, ◌+◌, ◌*◌, ◌≤◌, ◌∷◌, ◌++◌, [], length, OnOk};
ghost use Rattle.hex.specs.Hex.{encode_lower};
ghost use Rattle.text_fields.specs.Output.{IsPutTo};

use blob_source::{Sink, put_all};
use blob_words::Failed;
use hex_lanes::encode_into;
use std::marker::Model;

/// The most bytes of one write.
const SIZE: usize = 4096;

/// Bytes on their way to a sink. Contracts see their list.
#[derive(Drop)]
pub struct Buffer {
    bytes: [u8; SIZE],
    len: usize,
}

impl Model for Buffer {
    ghost use Rattle.std.specs.Prelude.{◌≤◌, ℕ, List, take};

    ghost Value = { List ℕ };

    ghost view = { λ buffer. take buffer.len buffer.bytes };

    ghost invariant = { λ buffer. buffer.len ≤ 4096 };
}

impl Buffer {
    /// The empty buffer. It stands on the stack.
    pub fn new() -> Buffer
        ensures { result ≡ [] }
    {
        Buffer {
            bytes: [0; SIZE],
            len: 0,
        }
    }

    // How many bytes have room.
    fn room(&self) -> usize
        ensures { length self.now + result ≡ 4096 }
    {
        SIZE - self.len
    }

    // Puts bytes that have room.
    fn append(&mut self, bytes: &[u8])
        requires { length self.old + length bytes.now ≤ 4096 }
        ensures { self.new ≡ self.old ++ bytes.now }
    {
        let end = self.len + bytes.len();
        self.bytes[self.len..end].copy_from_slice(bytes);
        self.len = end;
    }

    // Puts the digits of bytes, which have room.
    fn append_digits(&mut self, bytes: &[u8])
        requires { length self.old + 2 * length bytes.now ≤ 4096 }
        ensures { self.new ≡ self.old ++ encode_lower bytes.now }
    {
        let end = self.len + 2 * bytes.len();
        encode_into(bytes, &mut self.bytes[self.len..end]);
        self.len = end;
    }

    /// Writes all that is in the buffer.
    pub fn flush<K: Sink>(&mut self, out: &mut K) -> Result<(), Failed>
        ensures put { IsPutTo K.Sink out.old out.new self.old self.new [] result }
        ensures empty { OnOk result (self.new ≡ []) }
    {
        match put_all(out, &self.bytes[..self.len]) {
            Ok(()) => {
                self.len = 0;
                Ok(())
            }
            Err(Failed) => Err(Failed),
        }
    }

    /// Puts some bytes behind those in the buffer, and writes what has no room in it. After
    /// `Failed` the sink has taken a front of them all that lacks some byte.
    pub fn put<K: Sink>(&mut self, out: &mut K, bytes: &[u8]) -> Result<(), Failed>
        ensures { IsPutTo K.Sink out.old out.new self.old self.new bytes.now result }
    {
        if bytes.len() > self.room() {
            return match self.flush(out) {
                Ok(()) => self.put_through(out, bytes),
                Err(Failed) => Err(Failed),
            };
        }
        self.append(bytes);
        Ok(())
    }

    // Writes whole pieces of the bytes, and keeps the rest. The buffer is empty.
    fn put_through<K: Sink>(&mut self, out: &mut K, bytes: &[u8]) -> Result<(), Failed>
        requires { self.old ≡ [] }
        ensures { IsPutTo K.Sink out.old out.new self.old self.new bytes.now result }
    {
        let mut rest = bytes;
        while rest.len() > SIZE {
            let (front, after) = rest.split_at(SIZE);
            match put_all(out, front) {
                Ok(()) => {}
                Err(Failed) => return Err(Failed),
            }
            rest = after;
        }
        self.append(rest);
        Ok(())
    }

    /// Puts the digits of at most 2,048 bytes, two for each, where they stay in the buffer.
    pub fn put_digits<K: Sink>(&mut self, out: &mut K, bytes: &[u8]) -> Result<(), Failed>
        requires { length bytes.now ≤ 2048 }
        ensures { IsPutTo K.Sink out.old out.new self.old self.new (encode_lower bytes.now) result }
    {
        if 2 * bytes.len() > self.room() {
            return match self.flush(out) {
                Ok(()) => {
                    self.append_digits(bytes);
                    Ok(())
                }
                Err(Failed) => Err(Failed),
            };
        }
        self.append_digits(bytes);
        Ok(())
    }

    /// Puts one byte.
    pub fn put_byte<K: Sink>(&mut self, out: &mut K, byte: u8) -> Result<(), Failed>
        ensures { IsPutTo K.Sink out.old out.new self.old self.new (byte ∷ []) result }
    {
        self.put(out, &[byte])
    }
}
