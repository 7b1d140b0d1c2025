ghost use Rattle.std.specs.Prelude.{◌≡◌, ◌+◌, ◌-◌, ◌<◌, ◌++◌, [], ◌∷◌, OnErr, OnOk};

use crate::change::Change;
use blob_words::NoMemory;
use std::alloc::Global;
use std::marker::Model;

// What was done, with room for some changes to come.
#[derive(Debug, Drop)]
pub struct Log {
    changes: Vec<Change>,
    spare: usize,
}

impl Model for Log {
    ghost use Rattle.std.specs.Prelude.{◌+◌, ◌≤◌, vec_len};
    ghost use Rattle.std.specs.Vec.{vec_capacity};
    ghost use Rattle.page_disk.specs.Memory.{Record};

    ghost Value = { Record };

    ghost view = { λ log. record {
      changes = log.changes.items;
      spare = log.spare;
    } };

    ghost invariant = { λ log. vec_len log.changes + log.spare ≤ vec_capacity log.changes };
}

impl Log {
    pub fn new(alloc: Global) -> Log
        ensures { result ≡ record { changes = []; spare = 0 } }
    {
        Log {
            changes: Vec::new(alloc),
            spare: 0,
        }
    }

    // Takes the room for two changes more.
    pub fn reserve(&mut self) -> Result<(), NoMemory>
        ensures ok { OnOk result (self.new ≡ record self.old { spare = self.old.spare + 2 }) }
        ensures err { OnErr result (self.new ≡ self.old) }
    {
        let Some(room) = self.spare.checked_add(2) else {
            return Err(NoMemory);
        };
        self.changes.reserve(room)?;
        self.spare = room;
        Ok(())
    }

    // Puts a change into the room that is there.
    pub fn push(&mut self, change: Change)
        requires { 0 < self.old.spare }
        ensures { self.new ≡ record {
          changes = self.old.changes ++ change ∷ [];
          spare = self.old.spare - 1;
        } }
    {
        self.changes.push(change).unwrap();
        self.spare -= 1;
    }

    pub fn as_slice(&self) -> &[Change]
        ensures { result.now ≡ self.now.changes }
    {
        self.changes.as_slice()
    }
}
