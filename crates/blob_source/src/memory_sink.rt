ghost use Rattle.std.specs.Prelude.{◌≡◌, ◌^◌, ◌-◌, ◌<◌, ◌≤◌, ◌++◌, ◌==◌, ◌&&◌, ◌||◌, [], length, min, nat_lt, take, IfOk, OnErr, OnOk, Some};
ghost use Rattle.std.specs.Result.{is_err};
ghost use Rattle.std.specs.Io.KnownBytes.{WriteAppends};
ghost use Rattle.blob_source.specs.Faults.{Rose, next_count};
ghost use Rattle.blob_source.specs.Memory.{is_listed};

use crate::schedule::Schedule;
use crate::sink::Sink;
use blob_words::{Failed, NoMemory, Octets64};
use std::alloc::Global;
use std::marker::Model;

/// A sink into memory with room for so many bytes, which fails at the calls that it is told.
#[derive(Debug, Drop)]
pub struct MemorySink {
    bytes: Vec<u8>,
    room: usize,
    most: usize,
    schedule: Schedule,
    faults: u64,
}

impl Model for MemorySink {
    ghost use Rattle.std.specs.Prelude.{◌+◌, ◌≤◌, ◌<◌, vec_len};
    ghost use Rattle.std.specs.Vec.{vec_capacity};
    ghost use Rattle.blob_source.specs.Memory.{Basin};

    ghost Value = { Basin };

    ghost view = { λ sink. record {
      held = sink.bytes.items;
      room = sink.room;
      failing = sink.schedule.failing;
      most = sink.most;
      calls = sink.schedule.calls;
      faults = sink.faults;
    } };

    ghost invariant = { λ sink.
        (vec_len sink.bytes + sink.room ≤ vec_capacity sink.bytes) × (0 < sink.most) };
}

impl MemorySink {
    /// Takes up to `room` bytes, for which it takes the memory now. The calls of `write` are
    /// numbered from 0, and those in `failing` fail. So does one that finds no room.
    pub fn new(alloc: Global, room: usize, failing: Octets64) -> Result<MemorySink, NoMemory>
        ensures { IfOk result (λ sink. sink ≡ record {
          held = [];
          room = room;
          failing = failing;
          most = 2 ^ 64 - 1;
          calls = 0;
          faults = 0;
        }) }
    {
        MemorySink::with_most(alloc, room, failing, usize::MAX)
    }

    /// As `new`, with at most `most` bytes a call.
    pub fn with_most(
        alloc: Global,
        room: usize,
        failing: Octets64,
        most: usize,
    ) -> Result<MemorySink, NoMemory>
        requires { 0 < most }
        ensures { IfOk result (λ sink. sink ≡ record {
          held = [];
          room = room;
          failing = failing;
          most = most;
          calls = 0;
          faults = 0;
        }) }
    {
        let bytes = Vec::with_capacity(alloc, room)?;
        Ok(MemorySink {
            bytes,
            room,
            most,
            schedule: Schedule::new(failing),
            faults: 0,
        })
    }

    /// The bytes taken.
    pub fn bytes(&self) -> &[u8]
        ensures { result.now ≡ self.now.held }
    {
        self.bytes.as_slice()
    }
}

impl Sink for MemorySink {
    ghost held = { λ sink. Some sink.held };

    ghost faults = { λ sink. sink.faults };

    fn write(&mut self, bytes: &[u8]) -> Result<usize, Failed>
        ensures progress { IfOk result
            (λ n. (n ≤ length bytes.now) × (0 < length bytes.now → 0 < n)) }
        ensures bytes { WriteAppends (Some self.old.held) (Some self.new.held) result bytes.now }
        ensures good { OnOk result (self.new.faults ≡ self.old.faults) }
        ensures failed { OnErr result (Rose self.old.faults self.new.faults) }
        ensures later { self.old.faults ≤ self.new.faults }

        // It fails exactly at the calls listed and where a byte finds no room, and takes as much
        // as it may.
        ensures fails { is_err result ≡ (is_listed self.old.failing self.old.calls
            || ((self.old.room == 0) && nat_lt 0 (length bytes.now))) }
        ensures amount { IfOk result
            (λ n. n ≡ min (min (length bytes.now) self.old.most) self.old.room) }

        ensures ok { IfOk result (λ n. self.new ≡ record self.old {
          held = self.old.held ++ take n bytes.now;
          room = self.old.room - n;
          calls = next_count self.old.calls;
        }) }
        ensures err { OnErr result (self.new ≡ record self.old {
          calls = next_count self.old.calls;
          faults = next_count self.old.faults;
        }) }
    {
        let fails = self.schedule.fails_next();
        if fails || (self.room == 0 && !bytes.is_empty()) {
            self.faults = self.faults.saturating_add(1);
            return Err(Failed);
        }
        let count = bytes.len().min(self.most).min(self.room);
        self.bytes.extend_from_slice(&bytes[..count]).unwrap();
        self.room -= count;
        Ok(count)
    }
}
