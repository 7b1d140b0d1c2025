ghost use Rattle.std.specs.Prelude.{◌≡◌, ◌^◌, ◌-◌, ◌<◌, ◌≤◌, drop, length, min, IfOk, OnErr, OnOk, Some};
ghost use Rattle.std.specs.Result.{is_err};
ghost use Rattle.std.specs.Io.{ReadsAtMost};
ghost use Rattle.std.specs.Io.KnownBytes.{ReadConsumes};
ghost use Rattle.blob_source.specs.Faults.{Rose, next_count};
ghost use Rattle.blob_source.specs.Memory.{is_listed};

use crate::copies::copy_front;
use crate::schedule::Schedule;
use crate::source::Source;
use blob_words::{Failed, Octets, Octets64};
use std::marker::Model;

/// A source over memory, which fails at the calls that it is told.
#[derive(Debug, Drop)]
pub struct MemorySource {
    bytes: Octets,
    at: usize,
    most: usize,
    schedule: Schedule,
    faults: u64,
}

impl Model for MemorySource {
    ghost use Rattle.std.specs.Prelude.{◌≤◌, ◌<◌, drop, length};
    ghost use Rattle.blob_source.specs.Memory.{Feed};

    ghost Value = { Feed };

    ghost view = { λ source. record {
      left = drop source.at source.bytes;
      failing = source.schedule.failing;
      most = source.most;
      calls = source.schedule.calls;
      faults = source.faults;
    } };

    ghost invariant = { λ source. (source.at ≤ length source.bytes) × (0 < source.most) };
}

impl MemorySource {
    /// Gives the bytes. The calls of `read` are numbered from 0, and those in `failing` fail.
    pub fn new(bytes: Octets, failing: Octets64) -> MemorySource
        ensures { result ≡ record {
          left = bytes;
          failing = failing;
          most = 2 ^ 64 - 1;
          calls = 0;
          faults = 0;
        } }
    {
        MemorySource::with_most(bytes, failing, usize::MAX)
    }

    /// As `new`, with at most `most` bytes a call.
    pub fn with_most(bytes: Octets, failing: Octets64, most: usize) -> MemorySource
        requires { 0 < most }
        ensures { result ≡ record {
          left = bytes;
          failing = failing;
          most = most;
          calls = 0;
          faults = 0;
        } }
    {
        MemorySource {
            bytes,
            at: 0,
            most,
            schedule: Schedule::new(failing),
            faults: 0,
        }
    }
}

impl Source for MemorySource {
    ghost left = { λ source. Some source.left };

    ghost faults = { λ source. source.faults };

    fn read(&mut self, out: &mut [u8]) -> Result<usize, Failed>
        ensures bound { ReadsAtMost result out.new }
        ensures bytes { ReadConsumes (Some self.old.left) (Some self.new.left) result out.new }
        ensures good { OnOk result (self.new.faults ≡ self.old.faults) }
        ensures failed { OnErr result (Rose self.old.faults self.new.faults) }
        ensures later { self.old.faults ≤ self.new.faults }

        // It fails exactly at the calls listed, and gives as much as it may.
        ensures fails { is_err result ≡ is_listed self.old.failing self.old.calls }
        ensures amount { IfOk result
            (λ n. n ≡ min (min (length out.old) self.old.most) (length self.old.left)) }

        ensures ok { IfOk result (λ n. self.new ≡ record self.old {
          left = drop n self.old.left;
          calls = next_count self.old.calls;
        }) }
        ensures err { OnErr result (self.new ≡ record self.old {
          calls = next_count self.old.calls;
          faults = next_count self.old.faults;
        }) }
    {
        if self.schedule.fails_next() {
            self.faults = self.faults.saturating_add(1);
            return Err(Failed);
        }
        let left = &self.bytes.as_slice()[self.at..];
        let count = out.len().min(self.most).min(left.len());
        copy_front(left, out, count);
        self.at += count;
        Ok(count)
    }
}
