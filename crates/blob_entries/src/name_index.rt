ghost use Rattle.std.specs.Prelude.{◌≡◌, ◌<◌, ◌≤◌, ◌++◌, [], ◌∷◌, None, length, slice_get, IfOk};
ghost use Rattle.std.specs.Prelude.{OnErr, OnOk};
ghost use Rattle.blob_words.specs.declared.bounds.TheConstants.{MOST_BLOBS};
ghost use Rattle.blob_entries.specs.Names.{number_of};

use blob_words::{BlobName, NoMemory};
use std::alloc::Global;
use std::collections::BTreeMap;
use std::marker::Model;

/// Names in the order in which they came, each once. Contracts see their list; the place of a name
/// in it is its number.
#[derive(Debug, Drop)]
pub struct NameIndex {
    names: Vec<BlobName>,
    // Names come from outside: an ordered map, so that no choice of them makes a look-up slow.
    numbers: BTreeMap<u128, u32>,
}

impl Model for NameIndex {
    ghost use Rattle.blob_words.specs.declared.bounds.TheConstants.{MOST_BLOBS};
    ghost use Rattle.std.specs.Prelude.{ℕ, ◌≡◌, ◌≤◌, List, length};
    ghost use Rattle.std.specs.Ordering.{nat_cmp};
    ghost use Rattle.std.specs.BTreeMap as tree;
    ghost use Rattle.blob_entries.specs.Names.{number_of};

    ghost Value = { List ℕ };

    ghost view = { λ index. index.names.items };

    ghost invariant = { λ index. (length index.names.items ≤ MOST_BLOBS)
        × ((name : ℕ) → tree.get nat_cmp index.numbers name ≡ number_of name index.names.items) };
}

impl NameIndex {
    /// No names.
    pub fn new(alloc: Global) -> NameIndex
        ensures { result ≡ [] }
    {
        NameIndex {
            names: Vec::new(alloc),
            numbers: BTreeMap::new(alloc),
        }
    }

    /// How many there are.
    pub fn len(&self) -> usize
        ensures value { result ≡ length self.now }
        ensures most { result ≤ MOST_BLOBS }
    {
        self.names.len()
    }

    /// The number of a name.
    pub fn find(&self, name: BlobName) -> Option<usize>
        ensures { result ≡ number_of name self.now }
    {
        match self.numbers.get(&name.number()) {
            Some(number) => Some(*number as usize),
            None => None,
        }
    }

    /// The name that has this number.
    pub fn name_at(&self, number: usize) -> Option<BlobName>
        ensures { result ≡ slice_get self.now number }
    {
        self.names.get(number).copied()
    }

    /// Puts a name that isn't there at the end.
    pub fn push(&mut self, name: BlobName) -> Result<(), NoMemory>
        requires fresh { number_of name self.old ≡ None }
        requires room { length self.old < MOST_BLOBS }
        ensures ok { OnOk result (self.new ≡ self.old ++ name ∷ []) }
        ensures err { OnErr result (self.new ≡ self.old) }
    {
        self.names.reserve(1)?;
        let number = self.names.len() as u32;
        self.numbers.insert(name.number(), number)?;
        self.names.push(name).unwrap();
        Ok(())
    }
}
