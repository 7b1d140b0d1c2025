ghost use Rattle.std.specs.Prelude.{◌≡◌, ◌+◌, ◌-◌, ◌^◌, ◌<◌, ◌≤◌, ◌++◌, [], ◌∷◌, true, false, Some, None, drop, length, min, take, IsErrOf, IsSomeAnd, MatchResult, OnErr, OnOk};
ghost use Rattle.std.specs.Result.{is_err};
ghost use Rattle.blob_words.specs.declared.bounds.TheConstants.{LONGEST_APPEND};
ghost use Rattle.blob_source.specs.Faults.{Rose, next_count};
ghost use Rattle.blob_source.specs.Memory.{is_listed};
ghost use Rattle.page_disk.specs.declared.change.Change.TheVariants.{Put, Torn, Remove, Left};
ghost use Rattle.page_disk.specs.Changes.{last_put, with_change, with_more, with_put, with_torn, HasRange, IsNew, Stands};
ghost use Rattle.page_disk.specs.Memory.{came_in, new_disk, open_in};

use crate::change::Change;
use crate::disk::PageDisk;
use crate::fault::PutFault;
use crate::find::{fill_from, last_put};
use crate::log::Log;
use crate::written::Written;
use blob_source::Schedule;
use blob_words::{Failed, Octets64, PageNo};
use std::alloc::Global;
use std::marker::Model;

/// A disk over memory, which tells all that was done and fails at the calls that it is told. A
/// write counts as one call, whose number is drawn at `begin`, together with `get` and `remove`;
/// `append` and `seal` are counted among themselves.
#[derive(Debug, Drop)]
pub struct MemoryDisk {
    alloc: Global,
    log: Log,
    write: Option<Written>,
    schedule: Schedule,
    piece_schedule: Schedule,
    faults: u64,
    meter: u64,
}

impl Model for MemoryDisk {
    ghost use Rattle.std.specs.Prelude.{◌≡◌, ◌+◌, if◌then◌else◌, is_some, length};
    ghost use Rattle.page_disk.specs.Memory.{Disk, standing};

    ghost Value = { Disk };

    ghost view = { λ disk. record {
      changes = disk.log.changes;
      write = disk.write;
      failing = disk.schedule.failing;
      pieces = disk.piece_schedule.failing;
      calls = disk.schedule.calls;
      piece_calls = disk.piece_schedule.calls;
      faults = disk.faults;
      meter = disk.meter;
    } };

    // There is room for the removal of each page, and for the end of the open write.
    ghost invariant = { λ disk. disk.log.spare
        ≡ length (standing disk.log.changes) + (if is_some disk.write then 2 else 0) };
}

impl MemoryDisk {
    /// An empty disk. The calls are numbered from 0, and those in `failing` fail.
    pub fn new(alloc: Global, failing: Octets64) -> MemoryDisk
        ensures { result ≡ new_disk failing [] }
    {
        MemoryDisk::with_pieces(alloc, failing, Octets64::new(alloc))
    }

    /// As `new`; the `append` and `seal` calls whose number among themselves is in `pieces` fail
    /// too.
    pub fn with_pieces(alloc: Global, failing: Octets64, pieces: Octets64) -> MemoryDisk
        ensures { result ≡ new_disk failing pieces }
    {
        MemoryDisk {
            alloc,
            log: Log::new(alloc),
            write: None,
            schedule: Schedule::new(failing),
            piece_schedule: Schedule::new(pieces),
            faults: 0,
            meter: 0,
        }
    }

    /// What was done, the last thing last.
    pub fn changes(&self) -> &[Change]
        ensures { result.now ≡ self.now.changes }
    {
        self.log.as_slice()
    }
}

impl PageDisk for MemoryDisk {
    ghost changes = { λ disk. Some disk.changes };

    ghost writing = { open_in };

    ghost came = { came_in };

    ghost faults = { λ disk. disk.faults };

    ghost meter = { λ disk. disk.meter };

    fn begin(&mut self, page: PageNo, len: u64) -> Result<(), PutFault>
        requires closed { open_in self.old ≡ None }
        requires some { 0 < len }
        requires new_page { IsNew page.0 self.old.changes }
        ensures ok { OnOk result
            ((open_in self.new ≡ Some (record { page = page; len = len; came = 0 }))
            × (Some self.new.changes ≡ Some self.old.changes) × (came_in self.new ≡ [])) }
        ensures failed { IsErrOf result PutFault.Failed → (open_in self.new ≡ None)
            × (Some self.new.changes ≡ with_change (Torn page) (Some self.old.changes))
            × Rose self.old.faults self.new.faults }
        ensures memory { IsErrOf result PutFault.NoMemory → (open_in self.new ≡ None)
            × (Some self.new.changes ≡ Some self.old.changes)
            × (self.new.faults ≡ self.old.faults) }
        ensures good { OnOk result (self.new.faults ≡ self.old.faults) }
        ensures later { self.old.faults ≤ self.new.faults }
        ensures meter { self.new.meter ≡ self.old.meter }

        // It fails exactly at the calls listed, where memory is found.
        ensures passes { OnOk result (is_listed self.old.failing self.old.calls ≡ false) }
        ensures fails { IsErrOf result PutFault.Failed
            → is_listed self.old.failing self.old.calls ≡ true }
        ensures opened { OnOk result (self.new ≡ record self.old {
          write = Some (record { page = page; len = len; bytes = [] });
          calls = next_count self.old.calls;
        }) }
        ensures torn { IsErrOf result PutFault.Failed → self.new ≡ record self.old {
          changes = self.old.changes ++ Torn page ∷ [];
          calls = next_count self.old.calls;
          faults = next_count self.old.faults;
        } }
        ensures same { IsErrOf result PutFault.NoMemory → self.new ≡ self.old }
    {
        let Ok(write) = Written::new(self.alloc, page, len) else {
            return Err(PutFault::NoMemory);
        };
        if self.log.reserve().is_err() {
            return Err(PutFault::NoMemory);
        }
        let is_failing = self.schedule.fails_next();
        if is_failing {
            self.log.push(Change::Torn(page));
            self.faults = self.faults.saturating_add(1);
            return Err(PutFault::Failed);
        }
        self.write = Some(write);
        Ok(())
    }

    fn append(&mut self, bytes: &[u8]) -> Result<(), Failed>
        requires fits { IsSomeAnd (open_in self.old)
            (λ write. write.came + length bytes.now ≤ write.len) }
        requires some { 0 < length bytes.now }
        requires most { length bytes.now ≤ LONGEST_APPEND }
        ensures ok { OnOk result
            ((open_in self.new ≡ with_more (length bytes.now) (open_in self.old))
            × (Some self.new.changes ≡ Some self.old.changes)
            × (came_in self.new ≡ came_in self.old ++ bytes.now)) }
        ensures failed { OnErr result ((open_in self.new ≡ None)
            × (Some self.new.changes ≡ with_torn (open_in self.old) (Some self.old.changes))
            × Rose self.old.faults self.new.faults) }
        ensures good { OnOk result (self.new.faults ≡ self.old.faults) }
        ensures later { self.old.faults ≤ self.new.faults }
        ensures meter { self.new.meter ≡ self.old.meter }

        // It fails exactly at the calls listed.
        ensures fails { is_err result ≡ is_listed self.old.pieces self.old.piece_calls }
        ensures longer { OnOk result (IsSomeAnd self.old.write
            (λ write. self.new ≡ record self.old {
              write = Some (record write { bytes = write.bytes ++ bytes.now });
              piece_calls = next_count self.old.piece_calls;
            })) }
        ensures torn { OnErr result (IsSomeAnd self.old.write (λ write. self.new ≡ record self.old {
          changes = self.old.changes ++ Torn write.page ∷ [];
          write = None;
          piece_calls = next_count self.old.piece_calls;
          faults = next_count self.old.faults;
        })) }
    {
        let is_failing = self.piece_schedule.fails_next();
        let mut write = self.write.take().unwrap();
        if is_failing {
            self.log.push(Change::Torn(write.page()));
            self.faults = self.faults.saturating_add(1);
            return Err(Failed);
        }
        write.append(bytes);
        self.write = Some(write);
        Ok(())
    }

    fn seal(&mut self) -> Result<(), Failed>
        requires whole { IsSomeAnd (open_in self.old) (λ write. write.came ≡ write.len) }
        ensures closed { open_in self.new ≡ None }
        ensures ok { OnOk result (Some self.new.changes
            ≡ with_put (open_in self.old) (came_in self.old) (Some self.old.changes)) }
        ensures failed { OnErr result
            ((Some self.new.changes ≡ with_torn (open_in self.old) (Some self.old.changes))
            × Rose self.old.faults self.new.faults) }
        ensures good { OnOk result (self.new.faults ≡ self.old.faults) }
        ensures later { self.old.faults ≤ self.new.faults }
        ensures meter { self.new.meter ≡ self.old.meter }

        // It fails exactly at the calls listed.
        ensures fails { is_err result ≡ is_listed self.old.pieces self.old.piece_calls }
        ensures put { OnOk result (IsSomeAnd self.old.write (λ write. self.new ≡ record self.old {
          changes = self.old.changes ++ Put write.page write.bytes ∷ [];
          write = None;
          piece_calls = next_count self.old.piece_calls;
        })) }
        ensures torn { OnErr result (IsSomeAnd self.old.write (λ write. self.new ≡ record self.old {
          changes = self.old.changes ++ Torn write.page ∷ [];
          write = None;
          piece_calls = next_count self.old.piece_calls;
          faults = next_count self.old.faults;
        })) }
    {
        let is_failing = self.piece_schedule.fails_next();
        let write = self.write.take().unwrap();
        if is_failing {
            self.log.push(Change::Torn(write.page()));
            self.faults = self.faults.saturating_add(1);
            return Err(Failed);
        }
        self.log.push(write.into_put());
        Ok(())
    }

    fn get(&mut self, page: PageNo, off: u64, out: &mut [u8]) -> Result<(), Failed>
        requires closed { open_in self.old ≡ None }
        requires there { HasRange page.0 off (length out.old) self.old.changes }
        ensures closed { open_in self.new ≡ None }
        ensures same { Some self.new.changes ≡ Some self.old.changes }
        ensures bytes { OnOk result (IsSomeAnd (last_put page.0 self.old.changes)
            (λ bytes. out.new ≡ take (length out.old) (drop off bytes))) }
        ensures failed { OnErr result (Rose self.old.faults self.new.faults) }
        ensures good { OnOk result (self.new.faults ≡ self.old.faults) }
        ensures later { self.old.faults ≤ self.new.faults }
        ensures meter { MatchResult result
            (λ _. self.new.meter ≡ min (self.old.meter + length out.old) (2 ^ 64 - 1))
            (λ _. self.new.meter ≡ self.old.meter) }

        // It fails exactly at the calls listed.
        ensures fails { is_err result ≡ is_listed self.old.failing self.old.calls }
        ensures read { OnOk result (self.new ≡ record self.old {
          calls = next_count self.old.calls;
          meter = min (self.old.meter + length out.old) (2 ^ 64 - 1);
        }) }
        ensures unread { OnErr result (self.new ≡ record self.old {
          calls = next_count self.old.calls;
          faults = next_count self.old.faults;
        }) }
    {
        let is_failing = self.schedule.fails_next();
        if is_failing {
            self.faults = self.faults.saturating_add(1);
            return Err(Failed);
        }
        let bytes = last_put(self.log.as_slice(), page).unwrap();
        fill_from(bytes, off, out);
        self.meter = self.meter.saturating_add(out.len() as u64);
        Ok(())
    }

    fn remove(&mut self, page: PageNo) -> Result<(), Failed>
        requires closed { open_in self.old ≡ None }
        requires there { Stands page.0 self.old.changes }
        ensures closed { open_in self.new ≡ None }
        ensures ok { OnOk result
            (Some self.new.changes ≡ with_change (Remove page) (Some self.old.changes)) }
        ensures failed { OnErr result
            ((Some self.new.changes ≡ with_change (Left page) (Some self.old.changes))
            × Rose self.old.faults self.new.faults) }
        ensures good { OnOk result (self.new.faults ≡ self.old.faults) }
        ensures later { self.old.faults ≤ self.new.faults }
        ensures meter { self.new.meter ≡ self.old.meter }

        // It fails exactly at the calls listed.
        ensures fails { is_err result ≡ is_listed self.old.failing self.old.calls }
        ensures removed { OnOk result (self.new ≡ record self.old {
          changes = self.old.changes ++ Remove page ∷ [];
          calls = next_count self.old.calls;
        }) }
        ensures left { OnErr result (self.new ≡ record self.old {
          changes = self.old.changes ++ Left page ∷ [];
          calls = next_count self.old.calls;
          faults = next_count self.old.faults;
        }) }
    {
        let is_failing = self.schedule.fails_next();
        if is_failing {
            self.log.push(Change::Left(page));
            self.faults = self.faults.saturating_add(1);
            return Err(Failed);
        }
        self.log.push(Change::Remove(page));
        Ok(())
    }
}
