//! A word that stands as it is.

ghost use Rattle.text_fields.specs.Output.{output, IsPut};

use crate::buffer::Buffer;
use crate::field::Spell;
use blob_source::Sink;
use blob_words::Failed;

/// Bytes that stand as they are.
#[derive(Drop)]
pub struct Literal<'a> {
    pub text: &'a [u8],
}

impl<'a> Spell for Literal<'a> {
    ghost spell = { λ literal. literal.text.now };

    fn put<K: Sink>(&self, buffer: &mut Buffer, out: &mut K) -> Result<(), Failed> {
        buffer.put(out, self.text)
    }
}
