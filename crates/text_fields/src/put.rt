//! Values put one after the other, each behind a separator.

ghost use Rattle.std.specs.Prelude.{◌≡◌, ◌∷◌, ◌++◌, [], map};
ghost use Rattle.std.specs.List.{flat_map};
ghost use Rattle.text_fields.specs.Fields.{fields};
ghost use Rattle.text_fields.specs.Output.{IsPutTo};

use crate::buffer::Buffer;
use crate::field::Spell;
use blob_source::Sink;
use blob_words::Failed;

/// Puts a value behind a separator.
pub fn put_field<A: Spell, K: Sink>(
    buffer: &mut Buffer,
    out: &mut K,
    separator: u8,
    a: &A,
) -> Result<(), Failed>
    ensures { IsPutTo K.Sink out.old out.new buffer.old buffer.new
        (separator ∷ A.spell a.now) result }
{
    match buffer.put_byte(out, separator) {
        Ok(()) => a.put(buffer, out),
        Err(Failed) => Err(Failed),
    }
}

/// Puts each value of a list.
pub fn put_each<A: Spell, K: Sink>(
    buffer: &mut Buffer,
    out: &mut K,
    separator: u8,
    items: &[A],
) -> Result<(), Failed>
    ensures { IsPutTo K.Sink out.old out.new buffer.old buffer.new
        (fields separator (map A.spell items.now)) result }
{
    for item in items {
        match put_field(buffer, out, separator, item) {
            Ok(()) => {}
            Err(Failed) => return Err(Failed),
        }
    }
    Ok(())
}

/// Puts a value and a line feed.
pub fn put_line<A: Spell, K: Sink>(
    buffer: &mut Buffer,
    out: &mut K,
    value: &A,
) -> Result<(), Failed>
    ensures { IsPutTo K.Sink out.old out.new buffer.old buffer.new
        (A.spell value.now ++ 10 ∷ []) result }
{
    match value.put(buffer, out) {
        Ok(()) => buffer.put_byte(out, b'\n'),
        Err(Failed) => Err(Failed),
    }
}

/// Puts each value of a list and a line feed behind it.
pub fn put_lines<A: Spell, K: Sink>(
    buffer: &mut Buffer,
    out: &mut K,
    items: &[A],
) -> Result<(), Failed>
    ensures { IsPutTo K.Sink out.old out.new buffer.old buffer.new
        (flat_map (λ item. A.spell item ++ 10 ∷ []) items.now) result }
{
    for item in items {
        match put_line(buffer, out, item) {
            Ok(()) => {}
            Err(Failed) => return Err(Failed),
        }
    }
    Ok(())
}
