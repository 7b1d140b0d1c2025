ghost use Rattle.std.specs.Prelude.{◌≡◌, ◌+◌, [], None, Some, drop, length, nat_le, take, unwrap_or, IfErr, IfOk, IfSome, IsSome, IsSomeAnd, MatchResult, OnErr, OnOk};
ghost use Rattle.std.specs.Bool.{OnTrue};
ghost use Rattle.std.specs.Option.{option_copied};
ghost use Rattle.std.specs.Result.{is_ok};
ghost use Rattle.std.specs.List.Sorted.{IsStrictlySortedBy};
ghost use Rattle.std.specs.Map.{keys_of, set_value};
ghost use Rattle.std.specs.BTreeMap.{get_by, is_at, UpdatesBy};
ghost use Rattle.blob_words.specs.Keys.{key_cmp, order_of};
ghost use Rattle.file_table.specs.Changes.{Notes};
ghost use Rattle.file_table.specs.Files.{content_of, fault_of, is_readable, note_of, noted, state_of, IsCause};

use crate::fault::{Changed, NoFile, NoteFault};
use crate::file_note::{FileNote, FileState};
use blob_words::bounds::MOST_FILES;
use blob_words::{FileName, NoMemory, Octets};
use std::alloc::Global;
use std::collections::BTreeMap;
use std::marker::Model;

/// The recorded files. Contracts see what is known of each name, in the order of the names.
#[derive(Debug, Drop)]
pub struct FileTable {
    alloc: Global,
    // Names come from outside: an ordered map, so that no choice of them makes a look-up slow.
    notes: BTreeMap<Vec<u8>, FileNote>,
}

impl Model for FileTable {
    ghost use Rattle.std.specs.Prelude.{ℕ, List, map};
    ghost use Rattle.file_table.specs.declared.file_note.FileNote.{FileNote};

    ghost Value = { List (List ℕ × FileNote) };

    ghost view = { λ table. map (λ entry. (entry.0.items, entry.1)) table.notes.entries };
}

// Lets the content under a name go, where the name is known.
fn clear_at(notes: &mut BTreeMap<Vec<u8>, FileNote>, name: &[u8])
    ensures known { IfSome (get_by (order_of name.now) notes.old) (λ note. notes.new.entries
        ≡ set_value (is_at (order_of name.now)) notes.old.entries (record note { bytes = None })) }
    ensures updates { IfSome (get_by (order_of name.now) notes.old) (λ note. UpdatesBy key_cmp
        (order_of name.now) notes.old notes.new (Some (record note { bytes = None }))) }
    ensures many { length notes.new.entries ≡ length notes.old.entries }
    ensures ordered { IsStrictlySortedBy key_cmp (keys_of notes.old.entries) }
{
    let _count = notes.len(); // says that the keys are in order
    if let Some(note) = notes.get_mut(name) {
        note.clear();
    }
}

// Fills `out` with the bytes from `off` on, if there are as many.
fn fill_from(bytes: &[u8], off: u64, out: &mut [u8]) -> bool
    ensures fits { result ≡ nat_le (off + length out.old) (length bytes.now) }
    ensures filled { OnTrue result (out.new ≡ take (length out.old) (drop off bytes.now)) }
{
    let start = off as usize;
    if bytes.len() < start || bytes.len() - start < out.len() {
        return false;
    }
    out.copy_from_slice(&bytes[start..start + out.len()]);
    true
}

impl FileTable {
    /// No files.
    pub fn new(alloc: Global) -> Result<FileTable, NoMemory>
        ensures { IfOk result (λ table. table ≡ []) }
    {
        Ok(FileTable {
            alloc,
            notes: BTreeMap::new(alloc),
        })
    }

    // What is known of a name.
    fn find(&self, name: &FileName) -> Option<&FileNote>
        ensures { option_copied result ≡ note_of name.now self.now }
    {
        self.notes.get(name.as_slice())
    }

    // How many names are known.
    fn count(&self) -> usize
        ensures { result ≡ length self.now }
    {
        self.notes.len()
    }

    // Why a content with this stamp may not be taken.
    fn fault_of(&self, name: &FileName, stamp: u64) -> Option<NoteFault>
        ensures { result ≡ fault_of stamp (length self.now) (note_of name.now self.now) }
    {
        match self.find(name) {
            Some(note) => {
                if stamp <= note.last {
                    return Some(NoteFault::StaleStamp(note.last));
                }
                None
            }
            None => {
                if self.count() >= MOST_FILES {
                    return Some(NoteFault::Full);
                }
                None
            }
        }
    }

    // Puts a content under a name.
    fn put(&mut self, name: &FileName, stamp: u64, bytes: &[u8]) -> Result<(), NoMemory>
        ensures ok { OnOk result (self.new
            ≡ noted name.now (record { last = stamp; bytes = Some bytes.now }) self.old) }
        ensures changes { OnOk result (Notes name.now
            (record { last = stamp; bytes = Some bytes.now }) self.old self.new) }
        ensures err { OnErr result (self.new ≡ self.old) }
    {
        let key = Vec::from_slice(self.alloc, name.as_slice())?;
        let content = Octets::from_slice(self.alloc, bytes)?;
        let note = FileNote {
            last: stamp,
            bytes: Some(content),
        };
        self.notes.insert(key, note)?;
        Ok(())
    }

    /// Takes the content of a file at a stamp that is above the last one of its name.
    pub fn note(&mut self, name: &FileName, stamp: u64, bytes: &[u8]) -> Result<(), NoteFault>
        ensures ok { OnOk result (self.new
            ≡ noted name.now (record { last = stamp; bytes = Some bytes.now }) self.old) }
        ensures changes { OnOk result (Notes name.now
            (record { last = stamp; bytes = Some bytes.now }) self.old self.new) }
        ensures none_due { OnOk result
            (fault_of stamp (length self.old) (note_of name.now self.old) ≡ None) }
        ensures fault { IfErr result (λ fault. (self.new ≡ self.old)
            × IsCause fault (fault_of stamp (length self.old) (note_of name.now self.old))) }
    {
        if let Some(fault) = self.fault_of(name, stamp) {
            return Err(fault);
        }
        if self.put(name, stamp, bytes).is_err() {
            return Err(NoteFault::NoMemory);
        }
        Ok(())
    }

    /// Lets the content of a file go; its last stamp stays known.
    pub fn forget(&mut self, name: &FileName) -> Result<(), NoFile>
        ensures cases { MatchResult result
            (λ _. IsSomeAnd (note_of name.now self.old) (λ note. IsSome note.bytes
            × (self.new ≡ noted name.now (record note { bytes = None }) self.old)))
            (λ _. (state_of name.now self.old ≡ None) × (self.new ≡ self.old)) }
        ensures changes { OnOk result (IfSome (note_of name.now self.old) (λ note.
            Notes name.now (record note { bytes = None }) self.old self.new)) }
    {
        if self.state(name).is_none() {
            return Err(NoFile);
        }
        clear_at(&mut self.notes, name.as_slice());
        Ok(())
    }

    /// The state in which a file is recorded now.
    pub fn state(&self, name: &FileName) -> Option<FileState>
        ensures { result ≡ state_of name.now self.now }
    {
        let note = self.find(name)?;
        match &note.bytes {
            Some(bytes) => Some(FileState {
                stamp: note.last,
                len: bytes.len() as u64,
            }),
            None => None,
        }
    }

    /// Fills `out` with the bytes of a file from `off` on, where it is still at the stamp and has
    /// them.
    pub fn read_range(
        &self,
        name: &FileName,
        stamp: u64,
        off: u64,
        out: &mut [u8],
    ) -> Result<(), Changed>
        ensures cause { is_ok result
            ≡ is_readable stamp (off + length out.old) (state_of name.now self.now) }
        ensures bytes { OnOk result (out.new
            ≡ take (length out.old) (drop off (unwrap_or (content_of name.now self.now) []))) }
    {
        let Some(note) = self.find(name) else {
            return Err(Changed);
        };
        let Some(bytes) = &note.bytes else {
            return Err(Changed);
        };
        if note.last != stamp || !fill_from(bytes.as_slice(), off, out) {
            return Err(Changed);
        }
        Ok(())
    }
}
