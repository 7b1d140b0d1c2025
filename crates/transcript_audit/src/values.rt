//! The bytes of cells.
ghost use Rattle.std.specs.Prelude.{◌≡◌, ◌==◌, ◌&&◌, false, map, nat_le, nat_lt, find, reverse, slice_get, IfOk};
ghost use Rattle.std.specs.Option.{option_and_then, option_copied, option_map, option_map_or};
ghost use Rattle.blob_model.specs.Parts.{embedded};
ghost use Rattle.blob_model.specs.Builds.{build_in};
ghost use Rattle.blob_model.specs.Transport.{brought, byte_from, is_within};
ghost use Rattle.blob_model.specs.Value.{is_byte};
ghost use Rattle.history_notions.specs.Kept.{arrivals_in, content_in, is_arrival, is_at_stamp};
ghost use Rattle.transcript_audit.specs.Cells.{cell_of, byte_by, agrees_in, agree_in};

use crate::cells::At;
use blob_words::{BlobName, ItemList, NoMemory, Octets, Plan};
use history_notions::builds::{Build, build_in};
use history_notions::contents::Contents;
use history_notions::recorded::{FileState, Note};
use history_notions::run::Source;
use history_notions::transport::{Brought, spans};
use session_script::Part;
use std::alloc::Global;

/// The byte at a place.
fn byte_at(bytes: &[u8], place: u128) -> Option<u8>
    ensures { result ≡ slice_get bytes.now place }
{
    if place >= bytes.len() as u128 {
        return None;
    }
    Some(bytes[place as usize])
}

/// The bytes that stand in the line.
fn embedded(alloc: Global, parts: &[Part]) -> Result<Octets, NoMemory>
    ensures { IfOk result (λ bytes. bytes ≡ embedded parts.now) }
{
    let mut found = ItemList::new(alloc);
    for part in parts {
        if let Part::Embedded(bytes) = part {
            found.extend_from_slice(bytes.as_slice())?;
        }
    }
    Ok(found)
}

fn is_arrival(one: &Brought, name: BlobName, segment: u64) -> bool
    ensures { result ≡ is_arrival name segment one.now }
{
    one.blob == name && u64::from(one.arrival.segment) == segment
}

fn arrival_in(all: &[Brought], name: BlobName, segment: u64) -> Option<&Brought>
    ensures { option_copied result ≡ find (is_arrival name segment) all.now }
{
    all.iter().find(|one| is_arrival(one, name, segment))
}

/// The byte at a place of those that came.
fn arrival_byte(one: &Brought, place: u128) -> Option<u8>
    ensures { result ≡ slice_get one.now.arrival.bytes place }
{
    byte_at(one.arrival.bytes.as_slice(), place)
}

/// The byte at a place of those that a segment brought.
fn brought_at(all: &[Brought], name: BlobName, segment: u64, place: u128) -> Option<u8>
    ensures { result ≡ option_and_then (λ bytes. slice_get bytes place)
        (brought (arrivals_in all.now name) segment) }
{
    match arrival_in(all, name, segment) {
        Some(one) => arrival_byte(one, place),
        None => None,
    }
}

/// Whether the place is in the span.
fn is_within(span: (u64, u64), index: u128) -> bool
    ensures { result ≡ is_within span index }
{
    let (from, len) = span;
    u128::from(from) <= index && index < u128::from(from) + u128::from(len)
}

/// The byte at a place of the own bytes, as the segment with this place brought it.
fn byte_in(all: &[Brought], name: BlobName, list: &[(u64, u64)], index: u128) -> Option<u8>
    ensures { result ≡ byte_from (arrivals_in all.now name) 0 list.now index }
{
    for segment in 0..list.len() {
        let span = list[segment];
        if is_within(span, index) {
            return brought_at(all, name, segment as u64, index - u128::from(span.0));
        }
    }
    None
}

/// The own byte of a blob at a place.
fn sent_byte(contents: &Contents, build: &Build, index: u128) -> Result<Option<u8>, NoMemory>
    ensures { IfOk result (λ byte. byte ≡ byte_by contents.now.limits
        contents.now.kept.brought build.now index build.now.plan) }
{
    if let Some(Plan::Inline) = build.plan {
        let bytes = embedded(contents.alloc, build.parts.as_slice())?;
        return Ok(byte_at(bytes.as_slice(), index));
    }
    let list = spans(contents.alloc, &contents.limits, build)?;
    let all = contents.kept.brought.as_slice();
    Ok(byte_in(all, build.name, list.as_slice(), index))
}

/// Whether the byte is known, and this one.
fn is_byte(known: Option<u8>, byte: u8) -> bool
    ensures { result ≡ is_byte known byte }
{
    match known {
        Some(known) => known == byte,
        None => false,
    }
}

fn has_stamp(note: &Note, stamp: u64) -> bool
    ensures { result ≡ option_map_or (λ state. state.stamp == stamp) note.now.state false }
{
    match &note.state {
        Some(state) => state.stamp == stamp,
        None => false,
    }
}

fn is_at_stamp(note: &Note, name: &[u8], stamp: u64) -> bool
    ensures { result ≡ is_at_stamp name.now stamp note.now }
{
    note.name.as_slice() == name && has_stamp(note, stamp)
}

fn note_at<'a>(notes: &'a [Note], name: &[u8], stamp: u64) -> Option<&'a Note>
    ensures { option_copied result ≡ find (is_at_stamp name.now stamp) (reverse notes.now) }
{
    notes
        .iter()
        .rev()
        .find(|note| is_at_stamp(note, name, stamp))
}

fn state_byte(state: &Option<FileState>, index: u128) -> Option<u8>
    ensures { result ≡ option_and_then (λ bytes. slice_get bytes index)
        (option_map (λ one. one.bytes) state.now) }
{
    match state {
        Some(state) => byte_at(state.bytes.as_slice(), index),
        None => None,
    }
}

/// The byte of a file at this stamp.
fn file_byte(notes: &[Note], name: &[u8], stamp: u64, index: u128) -> Option<u8>
    ensures { result ≡ option_and_then (λ bytes. slice_get bytes index)
        (content_in notes.now name.now stamp) }
{
    match note_at(notes, name, stamp) {
        Some(note) => state_byte(&note.state, index),
        None => None,
    }
}

/// The own byte of the blob of this name.
fn sent_byte_in(contents: &Contents, name: BlobName, index: u128) -> Result<Option<u8>, NoMemory>
    ensures { IfOk result (λ byte. byte ≡ option_and_then (λ build. byte_by contents.now.limits
        contents.now.kept.brought build index build.plan) (build_in contents.now.builds name)) }
{
    match build_in(contents.builds.as_slice(), name) {
        Some(build) => sent_byte(contents, build, index),
        None => Ok(None),
    }
}

/// Whether the byte agrees with the cell.
fn cell_agrees(contents: &Contents, at: &At, byte: u8) -> Result<bool, NoMemory>
    ensures { IfOk result (λ same. same ≡ agrees_in contents.now (cell_of at.now) byte) }
{
    match &at.source {
        Source::Sent(blob) => {
            let known = sent_byte_in(contents, *blob, at.index)?;
            Ok(is_byte(known, byte))
        }
        Source::Filed(name, stamp) => {
            let notes = contents.kept.notes.as_slice();
            let known = file_byte(notes, name.as_slice(), *stamp, at.index);
            Ok(is_byte(known, byte))
        }
        Source::Lent(slot) => Ok(contents.sizes.as_slice().get(*slot as usize).is_some()),
    }
}

/// Whether these are as many bytes as cells, each agreeing with its cell.
pub fn agree(contents: &Contents, cells: &[At], bytes: &[u8]) -> Result<bool, NoMemory>
    ensures { IfOk result (λ same. same
        ≡ agree_in contents.now (map cell_of cells.now) bytes.now) }
{
    if cells.len() != bytes.len() {
        return Ok(false);
    }
    for place in 0..bytes.len() {
        let same = cell_agrees(contents, &cells[place], bytes[place])?;
        if !same {
            return Ok(false);
        }
    }
    Ok(true)
}
