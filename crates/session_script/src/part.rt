//! The parts of a blob: one field of a `build` line each, whose own fields `:` parts.

ghost use Rattle.std.specs.Prelude.{◌≡◌, ◌≤◌, length, map, IfOk};
ghost use Rattle.std.specs.List.{AllByRecursion};
ghost use Rattle.session_script.specs.Reading.{ReadsPart};
ghost use Rattle.session_script.specs.Fault.{IsPart, IsPartFault, IsFirstPartFault};
ghost use Rattle.text_fields.specs.Fields.{fields};
ghost use Rattle.session_script.specs.Line.{letter_of, part_fields, part_text, PartHasText};
ghost use Rattle.text_fields.specs.Output.{IsPutTo};
ghost use Rattle.text_fields.specs.Reading.{split, IsReading};

use crate::event::{Part, Parts};
use crate::letter::Letter;
use blob_source::Sink;
use blob_words::{BlobName, Failed, FileName, Octets};
use std::alloc::Global;
use text_fields::LineFault;
use text_fields::buffer::Buffer;
use text_fields::field::{Positive, Spell};
use text_fields::fields::Fields;
use text_fields::keyword::Keyword;
use text_fields::values::Values;

fn read_embedded(alloc: Global, fields: &mut Fields<'_>) -> Result<Part, LineFault>
    ensures { ReadsPart Letter.Embedded fields.old result }
{
    let (bytes,) = fields.row::<(Octets,)>(alloc)?;
    Ok(Part::Embedded(bytes))
}

fn read_asked(alloc: Global, fields: &mut Fields<'_>) -> Result<Part, LineFault>
    ensures { ReadsPart Letter.Asked fields.old result }
{
    let (len,) = fields.row::<(u64,)>(alloc)?;
    Ok(Part::Asked(len))
}

fn read_file_range(alloc: Global, fields: &mut Fields<'_>) -> Result<Part, LineFault>
    ensures { ReadsPart Letter.FileRange fields.old result }
{
    let (name, off, len, stamp) = fields.row::<(FileName, u64, u64, u64)>(alloc)?;
    Ok(Part::FileRange {
        name,
        off,
        len,
        stamp,
    })
}

fn read_blob_range(alloc: Global, fields: &mut Fields<'_>) -> Result<Part, LineFault>
    ensures { ReadsPart Letter.BlobRange fields.old result }
{
    let (b, off, len) = fields.row::<(BlobName, u64, u64)>(alloc)?;
    Ok(Part::BlobRange { b, off, len })
}

fn read_handle_range(alloc: Global, fields: &mut Fields<'_>) -> Result<Part, LineFault>
    ensures { ReadsPart Letter.HandleRange fields.old result }
{
    let (k, off, len) = fields.row::<(u32, u64, Positive)>(alloc)?;
    Ok(Part::HandleRange { k, off, len: len.0 })
}

fn read_behind(alloc: Global, letter: Letter, fields: &mut Fields<'_>) -> Result<Part, LineFault>
    ensures { ReadsPart letter fields.old result }
{
    match letter {
        Letter::Embedded => read_embedded(alloc, fields),
        Letter::Asked => read_asked(alloc, fields),
        Letter::FileRange => read_file_range(alloc, fields),
        Letter::BlobRange => read_blob_range(alloc, fields),
        Letter::HandleRange => read_handle_range(alloc, fields),
    }
}

/// The part that a field spells, or the one thing that is wrong with it.
pub fn read_part(alloc: Global, text: &[u8]) -> Result<Part, LineFault>
    ensures part { IfOk result (λ _. IsPart (split 58 text.now)) }
    ensures read { IsReading (λ fault part. IsPartFault fault (split 58 part))
        PartHasText part_text text.now result }
{
    let mut fields = Fields::new(b':', text);
    let Some(first) = fields.next() else {
        return Err(LineFault::Word);
    };
    if fields.count() == 0 {
        return Err(LineFault::Word);
    }
    match Letter::from_text(first) {
        Some(letter) => read_behind(alloc, letter, &mut fields),
        None => Err(LineFault::Word),
    }
}

/// The parts that the fields spell, or what is wrong with the first that spells none.
pub fn read_parts(alloc: Global, fields: &mut Fields<'_>) -> Result<Parts, LineFault>
    ensures { IsReading IsFirstPartFault (AllByRecursion PartHasText)
        (map part_text) fields.old result }
{
    let mut parts = Parts::new(alloc);
    while let Some(text) = fields.next() {
        match read_part(alloc, text) {
            Ok(part) => match parts.push(part) {
                Ok(()) => {}
                Err(_) => return Err(LineFault::Memory),
            },
            Err(fault) => return Err(fault),
        }
    }
    Ok(parts)
}

fn letter_of(part: &Part) -> Letter
    ensures { result ≡ letter_of part.now }
{
    match part {
        Part::Embedded(_) => Letter::Embedded,
        Part::Asked(_) => Letter::Asked,
        Part::FileRange { .. } => Letter::FileRange,
        Part::BlobRange { .. } => Letter::BlobRange,
        Part::HandleRange { .. } => Letter::HandleRange,
    }
}

fn put_behind<K: Sink>(buffer: &mut Buffer, out: &mut K, part: &Part) -> Result<(), Failed>
    ensures { IsPutTo K.Sink out.old out.new buffer.old buffer.new
        (fields 58 (part_fields part.now)) result }
{
    match part {
        Part::Embedded(bytes) => (bytes,).put_all(buffer, out, b':'),
        Part::Asked(len) => (len,).put_all(buffer, out, b':'),
        Part::FileRange {
            name,
            off,
            len,
            stamp,
        } => (name, off, len, stamp).put_all(buffer, out, b':'),
        Part::BlobRange { b, off, len } => (b, off, len).put_all(buffer, out, b':'),
        Part::HandleRange { k, off, len } => (k, off, len).put_all(buffer, out, b':'),
    }
}

impl Spell for Part {
    ghost use Rattle.session_script.specs.Line.{part_text};

    ghost spell = { part_text };

    fn put<K: Sink>(&self, buffer: &mut Buffer, out: &mut K) -> Result<(), Failed> {
        match buffer.put(out, letter_of(self).text()) {
            Ok(()) => put_behind(buffer, out, self),
            Err(Failed) => Err(Failed),
        }
    }
}
