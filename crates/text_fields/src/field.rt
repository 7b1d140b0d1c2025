//! The values that stand in a field: each has one spelling.
mod bytes;
mod name;
mod number;
mod status;

ghost use Rattle.text_fields.specs.Kind.{IsFaultOf};
ghost use Rattle.text_fields.specs.Output.{IsPutTo};
ghost use Rattle.text_fields.specs.Reading.{IsReading};

use crate::buffer::Buffer;
pub use crate::field::bytes::{ContentType, SomeOctets};
pub use crate::field::number::Positive;
pub use crate::field::status::{Broken, Ending, Told};
use crate::line_fault::LineFault;
use blob_source::Sink;
use blob_words::Failed;
use std::alloc::Global;

/// A value that has one spelling.
pub trait Spell {
    ghost use Rattle.std.specs.Prelude.{ℕ, List};

    // The one spelling of a value.
    ghost spell: { Self → List ℕ };

    /// Puts the spelling. After `Failed` a front of it was written that lacks some byte.
    fn put<K: Sink>(&self, buffer: &mut Buffer, out: &mut K) -> Result<(), Failed>
        ensures { IsPutTo K.Sink out.old out.new buffer.old buffer.new (spell self.now) result };
}

impl<A: Spell> Spell for &A {
    ghost spell = { λ value. A.spell value.now };

    fn put<K: Sink>(&self, buffer: &mut Buffer, out: &mut K) -> Result<(), Failed> {
        (**self).put(buffer, out)
    }
}

/// A value that stands in one field.
pub trait Field: Spell + Sized {
    ghost use Rattle.text_fields.specs.Kind.{Kind, Spells};

    // What the field holds.
    ghost kind: { Kind };

    // The values that the type has.
    ghost Fits: { Self → Type 0 };

    /// The value that a text spells.
    fn read(alloc: Global, text: &[u8]) -> Result<Self, LineFault>
        ensures { IsReading (IsFaultOf kind) Fits Self.spell text.now result };

    // A spelling is one of its kind.
    ghost spelled: { (value : Self) → Fits value → Spells kind (Self.spell value) };
}
