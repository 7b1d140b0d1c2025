//! The open readers: ranges of blobs, each with its place.
ghost use Rattle.std.specs.Prelude.{◌≡◌, ℕ, ◌+◌, ◌-◌, ◌==◌, not, find, filter, map, if◌then◌else◌, Option, OnOk};
ghost use Rattle.std.specs.List.{list_any};
ghost use Rattle.std.specs.Option.{option_copied};
ghost use Rattle.blob_model.specs.History.{History};
ghost use Rattle.blob_model.specs.Builds.{builds};
ghost use Rattle.blob_model.specs.Readers.{range_end, opened, advanced, closed, readers_after};
ghost use Rattle.history_notions.specs.Keeps.{Keeps};
ghost use Rattle.history_notions.specs.Steps.{stepped};
ghost use Rattle.blob_model.specs.Chunk.{left};

use crate::builds::{Build, size_in};
use crate::kept::Kept;
use answer_text::Answer;
use blob_words::{BlobName, NoMemory};
use session_script::Event;
use std::marker::Model;

/// A reader: its number, its renderer, its blob, the place in the blob of the next byte to give,
/// and the end of its range.
#[derive(Clone, Copy, Debug)]
pub struct OpenReader {
    pub number: u32,
    pub owner: u32,
    pub blob: BlobName,
    pub place: u64,
    pub end: u128,
}

impl Model for OpenReader {
    ghost use Rattle.blob_model.specs.Readers as model;

    ghost Value = { model.OpenReader };

    ghost view = { λ one. record {
      number = one.number;
      owner = one.owner;
      blob = one.blob;
      place = one.place;
      end = one.end;
    } };

    ghost inverse = { λ one. record {
      number = one.number;
      owner = one.owner;
      blob = one.blob;
      place = one.place;
      end = one.end;
    } };
}

/// The end of a range in a blob of this size; one without a length goes on to the blob's end.
pub fn range_end(size: u128, off: u64, len: Option<u64>) -> u128
    ensures { result ≡ range_end size off len }
{
    match len {
        None => size,
        Some(len) => u128::from(off) + u128::from(len),
    }
}

/// How many bytes of its range the reader has not given.
pub fn left(reader: &OpenReader) -> u128
    ensures { result ≡ left reader.now }
{
    reader.end.saturating_sub(u128::from(reader.place))
}

/// The open reader of this number.
pub fn reader_at(readers: &[OpenReader], number: u32) -> Option<&OpenReader>
    ensures { option_copied result ≡ find (λ reader. reader.number == number) readers.now }
{
    readers.iter().find(|reader| reader.number == number)
}

/// Whether an open reader reads the blob.
pub fn is_read(readers: &[OpenReader], name: BlobName) -> bool
    ensures { result ≡ list_any (λ reader. reader.blob == name) readers.now }
{
    readers.iter().any(|reader| reader.blob == name)
}

fn advance_one(reader: &mut OpenReader, number: u32, count: u64) -> Result<(), NoMemory>
    ensures { OnOk result (reader.new ≡ advanced number count reader.old) }
{
    if reader.number == number {
        if count > u64::MAX - reader.place {
            return Err(NoMemory);
        }
        reader.place += count;
    }
    Ok(())
}

/// The reader of this number goes on by so many bytes; a place that 64 bits don't hold is want of
/// memory.
pub fn advance(readers: &mut [OpenReader], number: u32, count: u64) -> Result<(), NoMemory>
    ensures { OnOk result (readers.new ≡ map (advanced number count) readers.old) }
{
    for reader in readers {
        advance_one(reader, number, count)?;
    }
    Ok(())
}

/// The reader that is opened; on a broken blob its range is empty.
pub fn opened(
    kept: &Kept,
    blobs: &[Build],
    owner: u32,
    number: u32,
    name: BlobName,
    off: u64,
    len: Option<u64>,
) -> OpenReader
    ensures { (page : ℕ) (h : History) → Keeps h kept.now → blobs.now ≡ builds page h
        → result ≡ opened page h owner number name off len }
{
    let end = if kept.is_broken(name) {
        u128::from(off)
    } else {
        range_end(size_in(blobs, name), off, len)
    };
    OpenReader {
        number,
        owner,
        blob: name,
        place: off,
        end,
    }
}

/// How a line with its first answer changes the open readers.
pub fn hear(
    kept: &Kept,
    blobs: &[Build],
    event: &Event,
    answer: &Answer,
    readers: &mut Vec<OpenReader>,
) -> Result<(), NoMemory>
    ensures { OnOk result ((page : ℕ) (h : History) → Keeps h kept.now → blobs.now ≡ builds page h
        → readers.new.items ≡ readers_after page h event.now answer.now readers.old.items) }
{
    match event {
        Event::Read { r, q, b, off, len } => {
            readers.push(opened(kept, blobs, r.0, q.0, *b, *off, *len))?;
        }
        Event::Fetch {
            r,
            q,
            text,
            off,
            len,
        } => {
            if let Some(entry) = kept.resolved(*r, text) {
                readers.push(opened(kept, blobs, r.0, q.0, entry.blob, *off, *len))?;
            }
        }
        Event::Step { q } => step(readers, q.0, answer)?,
        Event::Cancel { q, .. } => close(readers, q.0),
        Event::Die { r } => close_owned(readers, r.0),
        Event::Finish => readers.clear(),
        _ => {}
    }
    Ok(())
}

/// A step that gave bytes moves its reader on, one whose answer is an end or a fault closes it.
fn step(readers: &mut Vec<OpenReader>, number: u32, answer: &Answer) -> Result<(), NoMemory>
    ensures { OnOk result (readers.new.items ≡ stepped number answer.now readers.old.items) }
{
    match answer {
        Answer::Given(_, bytes) => advance(readers, number, bytes.len() as u64)?,
        Answer::Ended(..)
        | Answer::FileChanged(..)
        | Answer::PageFault(..)
        | Answer::HandleFailed(..) => close(readers, number),
        _ => {}
    }
    Ok(())
}

/// The reader of this number is closed.
pub fn close(readers: &mut Vec<OpenReader>, number: u32)
    ensures { readers.new.items ≡ closed number readers.old.items }
{
    readers.retain(|reader| reader.number != number);
}

/// The readers of a renderer that died are closed.
pub fn close_owned(readers: &mut Vec<OpenReader>, owner: u32)
    ensures { readers.new.items ≡ filter (λ reader. not (reader.owner == owner)) readers.old.items }
{
    readers.retain(|reader| reader.owner != owner);
}
