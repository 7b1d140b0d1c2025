ghost use Rattle.std.specs.Prelude.{◌≡◌, ◌+◌, ◌≤◌, drop, length, take, OnErr, OnOk};
ghost use Rattle.std.specs.Result.{is_err};
ghost use Rattle.blob_source.specs.Faults.{Rose, next_count};
ghost use Rattle.blob_source.specs.Memory.{is_listed};
ghost use Rattle.data_handles.specs.Handles.{handle_of, with_faults};

use crate::handle::DataHandle;
use blob_source::Schedule;
use blob_words::{Failed, Octets, Octets64};
use std::marker::Model;

/// An object over memory, which tells its bytes and fails at the reads that it is told.
#[derive(Debug, Drop)]
pub struct MemoryHandle {
    bytes: Octets,
    schedule: Schedule,
    faults: u64,
}

impl Model for MemoryHandle {
    ghost use Rattle.data_handles.specs.Handles.{Held};

    ghost Value = { Held };

    ghost view = { λ handle. record {
      bytes = handle.bytes;
      failing = handle.schedule.failing;
      calls = handle.schedule.calls;
      faults = handle.faults;
    } };
}

impl MemoryHandle {
    /// Holds the bytes. The calls of `read` are numbered from 0, and those in `failing` fail.
    pub fn new(bytes: Octets, failing: Octets64) -> MemoryHandle
        ensures { result ≡ record { bytes = bytes; failing = failing; calls = 0; faults = 0 } }
    {
        MemoryHandle {
            bytes,
            schedule: Schedule::new(failing),
            faults: 0,
        }
    }
}

impl DataHandle for MemoryHandle {
    ghost seen = { handle_of };

    fn size(&self) -> u64 {
        self.bytes.len() as u64
    }

    fn faults(&self) -> u64 {
        self.faults
    }

    fn read(&mut self, off: u64, out: &mut [u8]) -> Result<(), Failed>
        requires { off + length out.old ≤ length self.old.bytes }
        ensures same { handle_of self.new ≡ with_faults (handle_of self.old) self.new.faults }
        ensures bytes { OnOk result (out.new ≡ take (length out.old) (drop off self.old.bytes)) }
        ensures failed { OnErr result (Rose self.old.faults self.new.faults) }
        ensures good { OnOk result (handle_of self.new ≡ handle_of self.old) }
        ensures later { self.old.faults ≤ self.new.faults }

        // It fails exactly at the reads listed.
        ensures fails { is_err result ≡ is_listed self.old.failing self.old.calls }
        ensures ok { OnOk result
            (self.new ≡ record self.old { calls = next_count self.old.calls }) }
        ensures err { OnErr result (self.new ≡ record self.old {
          calls = next_count self.old.calls;
          faults = next_count self.old.faults;
        }) }
    {
        if self.schedule.fails_next() {
            self.faults = self.faults.saturating_add(1);
            return Err(Failed);
        }
        let start = off as usize;
        out.copy_from_slice(&self.bytes.as_slice()[start..start + out.len()]);
        Ok(())
    }
}
