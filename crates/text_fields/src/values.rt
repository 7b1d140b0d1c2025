//! Values that are put one after the other, each behind a separator.

ghost use Rattle.std.specs.Prelude.{◌∷◌, []};

use crate::buffer::Buffer;
use crate::field::Spell;
use crate::put::put_field;
use blob_source::Sink;
use blob_words::Failed;

/// Values that have a spelling each: a tuple of up to seven, or of references to them.
pub trait Values {
    ghost use Rattle.std.specs.Prelude.{ℕ, List};
    ghost use Rattle.text_fields.specs.Fields.{fields};
    ghost use Rattle.text_fields.specs.Output.{IsPutTo};

    // The spellings of the values.
    ghost spell: { Self → List (List ℕ) };

    /// Puts each value behind a separator. After `Failed` a front of them was written that lacks
    /// some byte.
    fn put_all<K: Sink>(
        &self,
        buffer: &mut Buffer,
        out: &mut K,
        separator: u8,
    ) -> Result<(), Failed>
        ensures { IsPutTo K.Sink out.old out.new buffer.old buffer.new
            (fields separator (spell self.now)) result };
}

impl<A: Spell> Values for (A,) {
    ghost spell = { λ values. A.spell values.0 ∷ [] };

    fn put_all<K: Sink>(
        &self,
        buffer: &mut Buffer,
        out: &mut K,
        separator: u8,
    ) -> Result<(), Failed> {
        put_field(buffer, out, separator, &self.0)
    }
}

impl<A: Spell, B: Spell> Values for (A, B) {
    ghost spell = { λ values. A.spell values.0 ∷ B.spell values.1 ∷ [] };

    fn put_all<K: Sink>(
        &self,
        buffer: &mut Buffer,
        out: &mut K,
        separator: u8,
    ) -> Result<(), Failed> {
        match put_field(buffer, out, separator, &self.0) {
            Ok(()) => (&self.1,).put_all(buffer, out, separator),
            Err(Failed) => Err(Failed),
        }
    }
}

impl<A: Spell, B: Spell, C: Spell> Values for (A, B, C) {
    ghost spell = { λ values. A.spell values.0 ∷ B.spell values.1 ∷ C.spell values.2 ∷ [] };

    fn put_all<K: Sink>(
        &self,
        buffer: &mut Buffer,
        out: &mut K,
        separator: u8,
    ) -> Result<(), Failed> {
        match put_field(buffer, out, separator, &self.0) {
            Ok(()) => (&self.1, &self.2).put_all(buffer, out, separator),
            Err(Failed) => Err(Failed),
        }
    }
}

impl<A: Spell, B: Spell, C: Spell, D: Spell> Values for (A, B, C, D) {
    ghost spell = { λ values. A.spell values.0 ∷ B.spell values.1 ∷ C.spell values.2
        ∷ D.spell values.3 ∷ [] };

    fn put_all<K: Sink>(
        &self,
        buffer: &mut Buffer,
        out: &mut K,
        separator: u8,
    ) -> Result<(), Failed> {
        match put_field(buffer, out, separator, &self.0) {
            Ok(()) => (&self.1, &self.2, &self.3).put_all(buffer, out, separator),
            Err(Failed) => Err(Failed),
        }
    }
}

impl<A: Spell, B: Spell, C: Spell, D: Spell, E: Spell> Values for (A, B, C, D, E) {
    ghost spell = { λ values. A.spell values.0 ∷ B.spell values.1 ∷ C.spell values.2
        ∷ D.spell values.3 ∷ E.spell values.4 ∷ [] };

    fn put_all<K: Sink>(
        &self,
        buffer: &mut Buffer,
        out: &mut K,
        separator: u8,
    ) -> Result<(), Failed> {
        match put_field(buffer, out, separator, &self.0) {
            Ok(()) => (&self.1, &self.2, &self.3, &self.4).put_all(buffer, out, separator),
            Err(Failed) => Err(Failed),
        }
    }
}

impl<A: Spell, B: Spell, C: Spell, D: Spell, E: Spell, F: Spell> Values for (A, B, C, D, E, F) {
    ghost spell = { λ values. A.spell values.0 ∷ B.spell values.1 ∷ C.spell values.2
        ∷ D.spell values.3 ∷ E.spell values.4 ∷ F.spell values.5 ∷ [] };

    fn put_all<K: Sink>(
        &self,
        buffer: &mut Buffer,
        out: &mut K,
        separator: u8,
    ) -> Result<(), Failed> {
        match put_field(buffer, out, separator, &self.0) {
            Ok(()) => (&self.1, &self.2, &self.3, &self.4, &self.5).put_all(buffer, out, separator),
            Err(Failed) => Err(Failed),
        }
    }
}

impl<A: Spell, B: Spell, C: Spell, D: Spell, E: Spell, F: Spell, G: Spell> Values
    for (A, B, C, D, E, F, G) {
    ghost spell = { λ values. A.spell values.0 ∷ B.spell values.1 ∷ C.spell values.2
        ∷ D.spell values.3 ∷ E.spell values.4 ∷ F.spell values.5 ∷ G.spell values.6 ∷ [] };

    fn put_all<K: Sink>(
        &self,
        buffer: &mut Buffer,
        out: &mut K,
        separator: u8,
    ) -> Result<(), Failed> {
        match put_field(buffer, out, separator, &self.0) {
            Ok(()) => (&self.1, &self.2, &self.3, &self.4, &self.5, &self.6).put_all(
                buffer, out, separator,
            ),
            Err(Failed) => Err(Failed),
        }
    }
}
