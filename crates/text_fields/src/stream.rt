//! Spellings, written to a sink as a stream or put at the end of bytes.

ghost use Rattle.std.specs.Prelude.{◌≡◌, ◌++◌, [], OnOk, OnErr};
ghost use Rattle.text_fields.specs.Output.{IsStreamedTo};

use crate::buffer::Buffer;
use crate::field::Spell;
use crate::growing::Growing;
use blob_source::Sink;
use blob_words::{Failed, NoMemory, Octets};
use std::alloc::Global;
use std::mem;

/// Writes a spelling through a buffer in which nothing is ahead, in pieces of at most 4,096 bytes,
/// and takes no memory: a loop over many values has one buffer for them all. After `Failed`, which
/// comes only where the sink's count rose, a front of it was written that lacks some byte.
pub fn stream_through<A: Spell, K: Sink>(
    value: &A,
    buffer: &mut Buffer,
    out: &mut K,
) -> Result<(), Failed>
    requires { buffer.old ≡ [] }
    ensures streamed { IsStreamedTo K.Sink out.old out.new (A.spell value.now) result }
    ensures empty { OnOk result (buffer.new ≡ []) }
{
    match value.put(buffer, out) {
        Ok(()) => buffer.flush(out),
        Err(Failed) => Err(Failed),
    }
}

/// The same through a buffer of its own, on the stack.
pub fn stream<A: Spell, K: Sink>(value: &A, out: &mut K) -> Result<(), Failed>
    ensures { IsStreamedTo K.Sink out.old out.new (A.spell value.now) result }
{
    stream_through(value, &mut Buffer::new(), out)
}

/// Puts a spelling at the end of the bytes. After want of memory they are as they were.
pub fn print<A: Spell>(alloc: Global, value: &A, out: &mut Octets) -> Result<(), NoMemory>
    ensures ok { OnOk result (out.new ≡ out.old ++ A.spell value.now) }
    ensures err { OnErr result (out.new ≡ out.old) }
{
    let len = out.len();
    let mut growing = Growing::new(mem::replace(out, Octets::new(alloc)));
    let streamed = stream(value, &mut growing);
    *out = growing.into_bytes();
    match streamed {
        Ok(()) => Ok(()),
        Err(Failed) => {
            out.truncate(len);
            Err(NoMemory)
        }
    }
}
