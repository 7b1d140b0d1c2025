ghost use Rattle.std.specs.Prelude.{◌≡◌, ◌-◌, ◌<◌, ◌≤◌, length, IfSome, OnOk};
ghost use Rattle.std.specs.Option.{option_map};
ghost use Rattle.page_volumes.specs.Kept.{new_log, noted, sealed, started, taken};

use crate::incoming::Incoming;
use blob_words::{NoMemory, PageNo};
use page_disk::Change;
use std::alloc::Global;
use std::marker::Model;

// What was done, with room for some changes to come, and the bytes of the open write.
#[derive(Debug, Drop)]
pub struct Log {
    changes: Vec<Change>,
    spare: usize,
    incoming: Incoming,
}

impl Model for Log {
    ghost use Rattle.std.specs.Prelude.{◌+◌, ◌≤◌, vec_len};
    ghost use Rattle.std.specs.Vec.{vec_capacity};
    ghost use Rattle.page_volumes.specs.Kept.{Kept};

    ghost Value = { Kept };

    ghost view = { λ log. record {
      changes = log.changes.items;
      spare = log.spare;
      incoming = log.incoming;
    } };

    ghost invariant = { λ log. vec_len log.changes + log.spare ≤ vec_capacity log.changes };
}

impl Log {
    pub fn new(alloc: Global) -> Log
        ensures { result ≡ new_log }
    {
        Log {
            changes: Vec::new(alloc),
            spare: 0,
            incoming: Incoming::new(alloc),
        }
    }

    // Takes the room for `count` changes.
    fn reserve(&mut self, count: usize) -> Result<(), NoMemory>
        ensures same { self.new ≡ record self.old { spare = self.new.spare } }
        ensures more { self.old.spare ≤ self.new.spare }
        ensures ok { OnOk result (count ≤ self.new.spare) }
    {
        if count <= self.spare {
            return Ok(());
        }
        self.changes.reserve(count)?;
        self.spare = count;
        Ok(())
    }

    // Takes the room for `count` changes and for the `len` bytes of a write.
    pub fn prepare(&mut self, count: usize, len: u64) -> Result<(), NoMemory>
        ensures changes { self.new.changes ≡ self.old.changes }
        ensures bytes { self.new.incoming.bytes ≡ self.old.incoming.bytes }
        ensures more { self.old.spare ≤ self.new.spare }
        ensures ok { OnOk result ((count ≤ self.new.spare) × (self.new.incoming.room ≡ len)) }
    {
        self.reserve(count)?;
        self.incoming.prepare(len)
    }

    // A write begins.
    pub fn start(&mut self)
        ensures { self.new ≡ started self.old }
    {
        self.incoming.clear();
    }

    // Bytes came to the open write.
    pub fn append(&mut self, bytes: &[u8])
        requires { length bytes.now ≤ self.old.incoming.room }
        ensures { self.new ≡ taken bytes.now self.old }
    {
        self.incoming.append(bytes);
    }

    // The page was put with the bytes that came.
    pub fn put(&mut self, page: PageNo)
        requires { 0 < self.old.spare }
        ensures { self.new ≡ sealed page self.old }
    {
        let bytes = self.incoming.take();
        self.push(Change::Put(page, bytes));
    }

    // Puts a change into the room that is there.
    pub fn push(&mut self, change: Change)
        requires { 0 < self.old.spare }
        ensures { self.new ≡ noted change self.old }
    {
        self.changes.push(change).unwrap();
        self.spare -= 1;
    }

    pub fn as_slice(&self) -> &[Change]
        ensures { result.now ≡ self.now.changes }
    {
        self.changes.as_slice()
    }
}

// A write begins.
pub fn start(log: &mut Option<Log>)
    ensures { log.new ≡ option_map started log.old }
{
    if let Some(log) = log {
        log.start();
    }
}

// Bytes came to the open write.
pub fn take_in(log: &mut Option<Log>, bytes: &[u8])
    requires { IfSome log.old (λ log. length bytes.now ≤ log.incoming.room) }
    ensures { log.new ≡ option_map (taken bytes.now) log.old }
{
    if let Some(log) = log {
        log.append(bytes);
    }
}

// The page was put with the bytes that came.
pub fn put(log: &mut Option<Log>, page: PageNo)
    requires { IfSome log.old (λ log. 0 < log.spare) }
    ensures { log.new ≡ option_map (sealed page) log.old }
{
    if let Some(log) = log {
        log.put(page);
    }
}

// Puts a change into the room that is there.
pub fn push(log: &mut Option<Log>, change: Change)
    requires { IfSome log.old (λ log. 0 < log.spare) }
    ensures { log.new ≡ option_map (noted change) log.old }
{
    if let Some(log) = log {
        log.push(change);
    }
}
