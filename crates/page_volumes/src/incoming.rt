ghost use Rattle.std.specs.Prelude.{◌≡◌, ◌+◌, ◌-◌, ◌≤◌, ◌++◌, [], length, OnErr, OnOk};

use blob_words::{NoMemory, Octets};
use std::alloc::Global;
use std::marker::Model;

// The bytes of an open write, with room for those to come.
#[derive(Debug, Drop)]
pub struct Incoming {
    alloc: Global,
    bytes: Vec<u8>,
    room: usize,
}

impl Model for Incoming {
    ghost use Rattle.std.specs.Prelude.{◌+◌, ◌≤◌, vec_len};
    ghost use Rattle.std.specs.Vec.{vec_capacity};
    ghost use Rattle.page_volumes.specs.Kept.{Bytes};

    ghost Value = { Bytes };

    ghost view = { λ incoming. record {
      bytes = incoming.bytes.items;
      room = incoming.room;
    } };

    ghost invariant = { λ incoming. vec_len incoming.bytes + incoming.room
        ≤ vec_capacity incoming.bytes };
}

impl Incoming {
    pub fn new(alloc: Global) -> Incoming
        ensures { result ≡ record { bytes = []; room = 0 } }
    {
        Incoming {
            alloc,
            bytes: Vec::new(alloc),
            room: 0,
        }
    }

    // Takes the room for `len` bytes.
    pub fn prepare(&mut self, len: u64) -> Result<(), NoMemory>
        ensures ok { OnOk result (self.new ≡ record self.old { room = len }) }
        ensures err { OnErr result (self.new ≡ self.old) }
    {
        self.bytes.reserve(len as usize)?;
        self.room = len as usize;
        Ok(())
    }

    // Forgets the bytes.
    pub fn clear(&mut self)
        ensures { self.new ≡ record self.old { bytes = [] } }
    {
        self.bytes.clear();
    }

    pub fn append(&mut self, bytes: &[u8])
        requires { length bytes.now ≤ self.old.room }
        ensures { self.new ≡ record {
          bytes = self.old.bytes ++ bytes.now;
          room = self.old.room - length bytes.now;
        } }
    {
        self.bytes.extend_from_slice(bytes).unwrap();
        self.room -= bytes.len();
    }

    // Hands the bytes out.
    pub fn take(&mut self) -> Octets
        ensures bytes { result ≡ self.old.bytes }
        ensures rest { self.new ≡ record { bytes = []; room = 0 } }
    {
        self.room = 0;
        Octets::from_vec(std::mem::replace(&mut self.bytes, Vec::new(self.alloc)))
    }
}
