//! Blob handles: how often a renderer holds a blob.
ghost use Rattle.std.specs.Prelude.{◌≡◌, ℕ, ◌==◌, [], ◌&&◌, nat_lt, if◌then◌else◌, OnOk};
ghost use Rattle.blob_model.specs.Handles.{count_after};
ghost use Rattle.history_notions.specs.Kept.{held_in, count_of, count_in};

use crate::pages::one_more;
use blob_words::{BlobName, NoMemory};
use session_script::Event;
use std::alloc::Global;
use std::collections::BTreeMap;
use std::marker::Model;

/// How often one renderer holds each blob.
#[derive(Debug, Drop)]
struct Held {
    // Names come from outside: an ordered map, so that no choice of them makes a look-up slow.
    counts: BTreeMap<u128, u64>,
}

impl Model for Held {
    ghost use Rattle.std.specs.Prelude.{ℕ, List};

    ghost Value = { List (ℕ × ℕ) };

    ghost view = { λ held. held.counts.entries };
}

/// The handles of the renderers: what each holds.
#[derive(Debug, Drop)]
pub struct Holds {
    alloc: Global,
    // Numbers come from outside too.
    renderers: BTreeMap<u32, Held>,
}

impl Model for Holds {
    ghost use Rattle.std.specs.Prelude.{ℕ, List};

    ghost Value = { List (ℕ × List (ℕ × ℕ)) };

    ghost view = { λ holds. holds.renderers.entries };
}

impl Held {
    // No handle.
    fn new(alloc: Global) -> Held
        ensures { result ≡ [] }
    {
        Held {
            counts: BTreeMap::new(alloc),
        }
    }

    // How many handles on the blob there are.
    fn count(&self, blob: BlobName) -> u64
        ensures { result ≡ count_of self.now blob }
    {
        match self.counts.get(&blob.number()) {
            Some(count) => *count,
            None => 0,
        }
    }

    // There are so many handles on the blob from now on.
    fn set(&mut self, blob: BlobName, count: u64) -> Result<(), NoMemory>
        ensures { OnOk result ((name : ℕ) → count_of self.new name
            ≡ (if blob == name then count else count_of self.old name)) }
    {
        if count == 0 {
            let _ = self.counts.remove(&blob.number());
            return Ok(());
        }
        let _ = self.counts.insert(blob.number(), count)?;
        Ok(())
    }
}

impl Holds {
    /// No handle.
    pub fn new(alloc: Global) -> Holds
        ensures { result ≡ [] }
    {
        Holds {
            alloc,
            renderers: BTreeMap::new(alloc),
        }
    }

    /// How many handles on the blob the renderer has.
    pub fn count(&self, holder: u32, blob: BlobName) -> u64
        ensures { result ≡ count_in self.now holder blob }
    {
        match self.renderers.get(&holder) {
            Some(held) => held.count(blob),
            None => 0,
        }
    }

    /// Whether the renderer has a handle on the blob.
    pub fn has(&self, holder: u32, blob: BlobName) -> bool
        ensures { result ≡ nat_lt 0 (count_in self.now holder blob) }
    {
        self.count(holder, blob) > 0
    }

    // Takes what the renderer holds.
    fn take(&mut self, holder: u32) -> Held
        ensures taken { result ≡ held_in self.old holder }
        ensures left { (other : ℕ) → held_in self.new other
            ≡ (if holder == other then [] else held_in self.old other) }
    {
        match self.renderers.remove(&holder) {
            Some(held) => held,
            None => Held::new(self.alloc),
        }
    }

    // The renderer holds this from now on.
    fn put(&mut self, holder: u32, held: Held) -> Result<(), NoMemory>
        ensures { OnOk result ((other : ℕ) → held_in self.new other
            ≡ (if holder == other then held else held_in self.old other)) }
    {
        let _ = self.renderers.insert(holder, held)?;
        Ok(())
    }

    // The renderer has so many handles on the blob from now on.
    fn set(&mut self, holder: u32, blob: BlobName, count: u64) -> Result<(), NoMemory>
        ensures { OnOk result ((other name : ℕ) → count_in self.new other name
            ≡ (if holder == other && blob == name then count
            else count_in self.old other name)) }
    {
        let mut held = self.take(holder);
        held.set(blob, count)?;
        self.put(holder, held)?;
        Ok(())
    }

    // A renderer that died holds nothing.
    fn clear(&mut self, holder: u32)
        ensures { (other name : ℕ) → count_in self.new other name
            ≡ (if holder == other then 0 else count_in self.old other name) }
    {
        let _ = self.take(holder);
    }

    /// The builder holds its blob once, a `pass` line adds one, a `drop` line takes one, and a dead
    /// renderer holds nothing.
    pub fn hear(&mut self, event: &Event) -> Result<(), NoMemory>
        ensures { OnOk result ((holder name : ℕ) → count_in self.new holder name
            ≡ count_after event.now holder name (count_in self.old holder name)) }
    {
        match event {
            Event::Build { r, b, .. } => self.set(r.0, *b, 1),
            Event::Slice { r, b, .. } => self.set(r.0, *b, 1),
            Event::Pass { to, b, .. } => {
                let count = one_more(self.count(to.0, *b))?;
                self.set(to.0, *b, count)
            }
            Event::Drop { r, b } => {
                let count = self.count(r.0, *b);
                self.set(r.0, *b, count.saturating_sub(1))
            }
            Event::Die { r } => {
                self.clear(r.0);
                Ok(())
            }
            Event::Finish => {
                self.renderers.clear();
                Ok(())
            }
            _ => Ok(()),
        }
    }
}
