ghost use Rattle.std.specs.Prelude.{◌≡◌, ◌==◌, ◌+◌, ◌≤◌, ◌^◌, [], ◌∷◌, ◌++◌, length, map, OnOk, OnErr, is_some};
ghost use Rattle.std.specs.Option.{option_copied};
ghost use Rattle.replay_run.specs.Live.{is_holder};
ghost use Rattle.replay_run.specs.Shelf.{IsWithin, blob_at, byte_count, bytes_in, count_of, freed, is_held, is_held_by, without};

use crate::store::blob::Blob;
use blob_words::{BlobName, NoMemory, RendererId, Tally};
use std::alloc::Global;
use std::marker::Model;

/// The live blobs, in order of build, and the number of pieces that were ever built.
#[derive(Drop)]
pub struct Shelf {
    blobs: Vec<Blob>,
    pieces: u32,
}

impl Model for Shelf {
    ghost use Rattle.replay_run.specs.Shelf.{Shelved, IsWithin};

    ghost Value = { Shelved };

    ghost view = { λ shelf. record { blobs = shelf.blobs.items; pieces = shelf.pieces } };

    ghost invariant = { λ shelf. IsWithin (record {
      blobs = shelf.blobs.items;
      pieces = shelf.pieces;
    }) };
}

fn is_holder(renderer: RendererId, holder: Option<RendererId>) -> bool
    ensures { result ≡ is_holder renderer holder }
{
    match holder {
        Some(holding) => renderer == holding,
        None => false,
    }
}

/// Who holds the blob once that of this name was let go.
fn holder_without(blob: &Blob, name: BlobName) -> Option<RendererId>
    ensures { record blob.now { holder = result } ≡ freed name blob.now }
{
    if name == blob.name { None } else { blob.holder }
}

/// Takes the holder from the blob of this name.
fn free_in(blobs: &mut Vec<Blob>, name: BlobName)
    ensures { blobs.new.items ≡ map (freed name) blobs.old.items }
{
    for blob in blobs.iter_mut() {
        blob.holder = holder_without(blob, name);
    }
}

/// Lets the blob of this name go.
fn remove_from(blobs: &mut Vec<Blob>, name: BlobName)
    ensures { blobs.new.items ≡ without name blobs.old.items }
{
    blobs.retain(|blob| name != blob.name);
}

fn count_of(blobs: &[Blob]) -> Tally
    requires { IsWithin (record { blobs = blobs.now; pieces = 65536 }) }
    ensures { result ≡ count_of blobs.now }
{
    let mut pieces = 0;
    let mut memory = 0;
    for blob in blobs {
        pieces += blob.pieces;
        memory += blob.bytes.len() as u64;
    }
    Tally {
        pieces,
        memory,
        files: 0,
        disk: 0,
    }
}

impl Shelf {
    pub fn new(alloc: Global) -> Shelf
        ensures { result ≡ record { blobs = []; pieces = 0 } }
    {
        Shelf {
            blobs: Vec::new(alloc),
            pieces: 0,
        }
    }

    /// How many pieces were ever built.
    pub fn pieces(&self) -> u32
        ensures pieces { result ≡ self.now.pieces }
        ensures within { IsWithin self.now }
    {
        self.pieces
    }

    pub fn find(&self, name: BlobName) -> Option<&Blob>
        ensures { option_copied result ≡ blob_at self.now.blobs name }
    {
        self.blobs.iter().find(|blob| name == blob.name)
    }

    /// The bytes of the blob of this name; none where there is no such blob.
    pub fn bytes_of(&self, name: BlobName) -> &[u8]
        ensures { result.now ≡ bytes_in (blob_at self.now.blobs name) }
    {
        match self.find(name) {
            Some(blob) => blob.bytes.as_slice(),
            None => &[],
        }
    }

    /// Whether the renderer has a handle on the blob of this name.
    pub fn is_held_by(&self, renderer: RendererId, name: BlobName) -> bool
        ensures { result ≡ is_held_by renderer (blob_at self.now.blobs name) }
    {
        match self.find(name) {
            Some(blob) => is_holder(renderer, blob.holder),
            None => false,
        }
    }

    /// Whether any renderer has a handle on the blob of this name.
    pub fn is_held(&self, name: BlobName) -> bool
        ensures { result ≡ is_held (blob_at self.now.blobs name) }
    {
        match self.find(name) {
            Some(blob) => blob.holder.is_some(),
            None => false,
        }
    }

    /// Puts a blob that was just built at the end.
    pub fn push(&mut self, blob: Blob) -> Result<(), NoMemory>
        requires bytes { byte_count self.old.blobs + length blob.bytes ≤ 2 ^ 30 }
        requires pieces { self.old.pieces + blob.pieces ≤ 65536 }
        ensures ok { OnOk result (self.new ≡ record {
          blobs = self.old.blobs ++ blob ∷ [];
          pieces = self.old.pieces + blob.pieces;
        }) }
        ensures err { OnErr result (self.new ≡ self.old) }
    {
        let pieces = self.pieces + blob.pieces;
        self.blobs.push(blob)?;
        self.pieces = pieces;
        Ok(())
    }

    /// Takes the holder from the blob of this name.
    pub fn free(&mut self, name: BlobName)
        ensures { self.new ≡ record self.old { blobs = map (freed name) self.old.blobs } }
    {
        free_in(&mut self.blobs, name);
    }

    /// Lets the blob of this name go.
    pub fn remove(&mut self, name: BlobName)
        ensures { self.new ≡ record self.old { blobs = without name self.old.blobs } }
    {
        remove_from(&mut self.blobs, name);
    }

    /// Lets all blobs go.
    pub fn clear(&mut self)
        ensures { self.new ≡ record self.old { blobs = [] } }
    {
        self.blobs.clear();
    }

    /// The pieces and bytes of the blobs, counted anew.
    pub fn tally(&self) -> Tally
        ensures count { result ≡ count_of self.now.blobs }
        ensures within { IsWithin self.now }
    {
        count_of(&self.blobs)
    }
}
