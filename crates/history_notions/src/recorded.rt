//! What is recorded of files.
ghost use Rattle.std.specs.Prelude.{◌≡◌, ℕ, List, find, reverse, bytes_eq, OnOk};
ghost use Rattle.std.specs.List.{list_any};
ghost use Rattle.std.specs.Option.{option_copied, option_map};
ghost use Rattle.blob_model.specs.Recorded.{recorded_after, last_stamp_after, content_after, file_names_after};
ghost use Rattle.history_notions.specs.Kept.{is_of, recorded_in, has_state, last_stamp_in, content_in};

use blob_words::{FileName, ItemList, NoMemory, Octets};
use session_script::Event;
use std::alloc::Global;
use std::marker::Model;

/// The state of a file: its change stamp and its bytes.
#[derive(Debug, Drop)]
pub struct FileState {
    pub stamp: u64,
    pub bytes: Octets,
}

impl Model for FileState {
    ghost use Rattle.blob_model.specs.Recorded as model;

    ghost Value = { model.FileState };

    ghost view = { λ one. record { stamp = one.stamp; bytes = one.bytes } };
}

/// What a line said of a file: its state, or that it is gone.
#[derive(Debug, Drop)]
pub struct Note {
    pub name: FileName,
    pub state: Option<FileState>,
}

impl Model for Note {
    ghost use Rattle.history_notions.specs.Kept as kept;

    ghost Value = { kept.Note };

    ghost view = { λ one. record { name = one.name; state = one.state } };
}

fn is_of(name: &[u8], note: &Note) -> bool
    ensures { result ≡ is_of name.now note.now }
{
    note.name.as_slice() == name
}

fn last_note<'a>(notes: &'a [Note], name: &[u8]) -> Option<&'a Note>
    ensures { option_copied result ≡ find (is_of name.now) (reverse notes.now) }
{
    notes.iter().rev().find(|note| is_of(name, note))
}

/// What is recorded now of the file.
pub fn recorded<'a>(notes: &'a [Note], name: &[u8]) -> Option<&'a FileState>
    ensures { option_copied result ≡ recorded_in notes.now name.now }
{
    match last_note(notes, name) {
        Some(note) => note.state.as_ref(),
        None => None,
    }
}

fn has_state(name: &[u8], note: &Note) -> bool
    ensures { result ≡ has_state name.now note.now }
{
    is_of(name, note) && note.state.is_some()
}

fn last_state<'a>(notes: &'a [Note], name: &[u8]) -> Option<&'a Note>
    ensures { option_copied result ≡ find (has_state name.now) (reverse notes.now) }
{
    notes.iter().rev().find(|note| has_state(name, note))
}

fn stamp_of(note: &Note) -> Option<u64>
    ensures { result ≡ option_map (λ state. state.stamp) note.now.state }
{
    match &note.state {
        Some(state) => Some(state.stamp),
        None => None,
    }
}

/// The last stamp ever recorded of the file.
pub fn last_stamp(notes: &[Note], name: &[u8]) -> Option<u64>
    ensures { result ≡ last_stamp_in notes.now name.now }
{
    match last_state(notes, name) {
        Some(note) => stamp_of(note),
        None => None,
    }
}

/// Whether the file was ever recorded.
pub fn is_known(files: &[FileName], name: &[u8]) -> bool
    ensures { result ≡ list_any (bytes_eq name.now) files.now }
{
    files.iter().any(|file| name == file.as_slice())
}

/// A file is named once, at its first `file` line.
pub fn file_names_after(
    alloc: Global,
    event: &Event,
    files: &mut ItemList<FileName>,
) -> Result<(), NoMemory>
    ensures { OnOk result (files.new ≡ file_names_after event.now files.old) }
{
    if let Event::File { name, .. } = event {
        if !is_known(files.as_slice(), name.as_slice()) {
            files.push(name.copy(alloc)?)?;
        }
    }
    Ok(())
}

/// An accepted `file` line records a state, a `gone` line takes it away.
pub fn hear(alloc: Global, event: &Event, notes: &mut ItemList<Note>) -> Result<(), NoMemory>
    ensures recorded { OnOk result ((name : List ℕ) → recorded_in notes.new name
        ≡ recorded_after event.now name (recorded_in notes.old name)) }
    ensures stamps { OnOk result ((name : List ℕ) → last_stamp_in notes.new name
        ≡ last_stamp_after event.now name (last_stamp_in notes.old name)) }
    ensures contents { OnOk result ((name : List ℕ) (stamp : ℕ) → content_in notes.new name stamp
        ≡ content_after event.now name stamp (content_in notes.old name stamp)) }
{
    match event {
        Event::File { name, stamp, bytes } => {
            let name = name.copy(alloc)?;
            let bytes = Octets::from_slice(alloc, bytes.as_slice())?;
            let state = Some(FileState {
                stamp: *stamp,
                bytes,
            });
            notes.push(Note { name, state })
        }
        Event::Gone { name } => {
            let name = name.copy(alloc)?;
            notes.push(Note { name, state: None })
        }
        _ => Ok(()),
    }
}
