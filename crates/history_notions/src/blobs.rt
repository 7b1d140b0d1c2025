//! The blobs of a session, in order of build, and where the first of each name stands.
ghost use Rattle.std.specs.Prelude.{◌≡◌, ℕ, ◌++◌, ◌∷◌, [], length, OnOk, OnErr};
ghost use Rattle.std.specs.Option.{option_copied};
ghost use Rattle.std.specs.Ordering.{nat_cmp};
ghost use Rattle.std.specs.BTreeMap as tree;
ghost use Rattle.blob_model.specs.Builds.{build_in};
ghost use Rattle.history_notions.specs.Firsts.{first_after};

use crate::builds::Build;
use blob_words::{BlobName, NoMemory};
use std::alloc::Global;
use std::collections::BTreeMap;
use std::marker::Model;

/// The blobs of a session. Contracts see their list, in order of build.
#[derive(Debug, Drop)]
pub struct Blobs {
    list: Vec<Build>,
    // Names come from outside: an ordered map, so that no choice of them makes a look-up slow.
    firsts: BTreeMap<u128, usize>,
}

impl Model for Blobs {
    ghost use Rattle.std.specs.Prelude.{ℕ, ◌≡◌, List};
    ghost use Rattle.std.specs.Ordering.{nat_cmp};
    ghost use Rattle.std.specs.BTreeMap as tree;
    ghost use Rattle.blob_model.specs.Builds as model;
    ghost use Rattle.history_notions.specs.Firsts.{first_of};

    ghost Value = { List model.Build };

    ghost view = { λ blobs. blobs.list.items };

    ghost invariant = { λ blobs. (name : ℕ)
        → tree.get nat_cmp blobs.firsts name ≡ first_of blobs.list.items name };
}

/// Notes that a name has come at a place: the first place of each name stays.
pub fn note(
    firsts: &mut BTreeMap<u128, usize>,
    name: BlobName,
    place: usize,
) -> Result<(), NoMemory>
    ensures ok { OnOk result ((other : ℕ) → tree.get nat_cmp firsts.new other
        ≡ first_after name place other (tree.get nat_cmp firsts.old other)) }
    ensures err { OnErr result (firsts.new.entries ≡ firsts.old.entries) }
{
    if firsts.contains_key(&name.number()) {
        return Ok(());
    }
    firsts.insert(name.number(), place)?;
    Ok(())
}

impl Blobs {
    /// No blob.
    pub fn new(alloc: Global) -> Blobs
        ensures { result ≡ [] }
    {
        Blobs {
            list: Vec::new(alloc),
            firsts: BTreeMap::new(alloc),
        }
    }

    /// The blobs in order of build.
    pub fn as_slice(&self) -> &[Build]
        ensures { result.now ≡ self.now }
    {
        self.list.as_slice()
    }

    /// How many there are.
    pub fn len(&self) -> usize
        ensures { result ≡ length self.now }
    {
        self.list.len()
    }

    /// The blob of this name.
    pub fn find(&self, name: BlobName) -> Option<&Build>
        ensures { option_copied result ≡ build_in self.now name }
    {
        match self.firsts.get(&name.number()) {
            Some(place) => self.list.get(*place),
            None => None,
        }
    }

    /// Puts the next blob behind the others.
    pub fn push(&mut self, build: Build) -> Result<(), NoMemory>
        ensures { OnOk result (self.new ≡ self.old ++ build ∷ []) }
    {
        self.list.reserve(1)?;
        note(&mut self.firsts, build.name, self.list.len())?;
        self.list.push(build).unwrap();
        Ok(())
    }
}
