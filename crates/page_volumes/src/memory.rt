ghost use Rattle.std.specs.Prelude.{◌≡◌, ◌+◌, ◌<◌, ◌≤◌, true, false, None, length, IsErrOf, IsSomeAnd, OnErr, OnOk};
ghost use Rattle.std.specs.Result.{is_err};
ghost use Rattle.blob_words.specs.declared.bounds.TheConstants.{LONGEST_APPEND};
ghost use Rattle.blob_source.specs.Memory.{is_listed};
ghost use Rattle.page_volumes.specs.Seen.{begun, longer, open_page, put, removed, torn, Appends, Begins, Gets, HasBytes, HasFile, HasNone, Removes, Seals};
ghost use Rattle.page_volumes.specs.Memory.{missed, new_store, passed};

use crate::incoming::Incoming;
use crate::shelf::Shelf;
use crate::volume::Volume;
use crate::writing::Writing;
use blob_source::Schedule;
use blob_words::{Failed, Octets64, PageNo};
use page_disk::PutFault;
use std::alloc::Global;
use std::marker::Model;

/// A volume over memory, which tells its files and fails at the calls that it is told. A write
/// counts as one call, whose number is drawn at `begin`, together with `get` and `remove`; `append`
/// and `seal` don't fail.
#[derive(Debug, Drop)]
pub struct MemoryVolume {
    shelf: Shelf,
    incoming: Incoming,
    write: Option<Writing>,
    schedule: Schedule,
    faults: u64,
}

impl Model for MemoryVolume {
    ghost use Rattle.std.specs.Prelude.{◌+◌, ◌<◌, ◌≤◌, Some, IfSome};
    ghost use Rattle.std.specs.Option.{option_map};
    ghost use Rattle.page_volumes.specs.Memory.{Store};

    ghost Value = { Store };

    ghost view = { λ volume. record {
      seen = record {
        write = option_map (λ write. record {
          page = write.page;
          len = write.len;
          came = write.came;
        }) volume.write;
        told = Some (record {
          files = volume.shelf.files;
          came = volume.incoming.bytes;
        });
        faults = volume.faults;
      };
      failing = volume.schedule.failing;
      calls = volume.schedule.calls;
    } };

    // There is room for the file of the open write, and for the bytes to come.
    ghost invariant = { λ volume. IfSome volume.write (λ write. (0 < volume.shelf.spare)
        × (write.len ≤ write.came + volume.incoming.room)) };
}

impl MemoryVolume {
    /// An empty volume. The calls are numbered from 0, and those in `failing` fail.
    pub fn new(alloc: Global, failing: Octets64) -> MemoryVolume
        ensures { result ≡ new_store failing }
    {
        MemoryVolume {
            shelf: Shelf::new(alloc),
            incoming: Incoming::new(alloc),
            write: None,
            schedule: Schedule::new(failing),
            faults: 0,
        }
    }
}

impl Volume for MemoryVolume {
    ghost seen = { λ volume. volume.seen };

    fn faults(&self) -> u64 {
        self.faults
    }

    fn begin(&mut self, page: PageNo, len: u64) -> Result<(), PutFault>
        requires closed { self.old.seen.write ≡ None }
        requires some { 0 < len }
        requires no_file { HasNone page.0 self.old.seen }
        ensures act { Begins page len self.old.seen result self.new.seen }
        ensures later { self.old.seen.faults ≤ self.new.seen.faults }

        // It fails exactly at the calls listed, where memory is found.
        ensures passes { OnOk result (is_listed self.old.failing self.old.calls ≡ false) }
        ensures fails { IsErrOf result PutFault.Failed
            → is_listed self.old.failing self.old.calls ≡ true }
        ensures opened { OnOk result (self.new ≡ passed (begun page len self.old.seen) self.old) }
        ensures torn { IsErrOf result PutFault.Failed
            → self.new ≡ missed (torn page.0 self.old.seen) self.old }
        ensures same { IsErrOf result PutFault.NoMemory → self.new ≡ self.old }
    {
        if self.shelf.prepare().is_err() || self.incoming.prepare(len).is_err() {
            return Err(PutFault::NoMemory);
        }
        let is_failing = self.schedule.fails_next();
        self.incoming.clear();
        if is_failing {
            self.shelf.push(page, None);
            self.faults = self.faults.saturating_add(1);
            return Err(PutFault::Failed);
        }
        self.write = Some(Writing { page, len, came: 0 });
        Ok(())
    }

    fn append(&mut self, bytes: &[u8]) -> Result<(), Failed>
        requires fits { IsSomeAnd self.old.seen.write
            (λ write. write.came + length bytes.now ≤ write.len) }
        requires some { 0 < length bytes.now }
        requires most { length bytes.now ≤ LONGEST_APPEND }
        ensures act { Appends bytes.now self.old.seen result self.new.seen }
        ensures later { self.old.seen.faults ≤ self.new.seen.faults }

        // It doesn't fail.
        ensures passes { is_err result ≡ false }
        ensures longer { self.new ≡ record self.old { seen = longer bytes.now self.old.seen } }
    {
        let write = self.write.unwrap();
        self.incoming.append(bytes);
        self.write = Some(Writing {
            came: write.came + bytes.len() as u64,
            ..write
        });
        Ok(())
    }

    fn seal(&mut self) -> Result<(), Failed>
        requires whole { IsSomeAnd self.old.seen.write (λ write. write.came ≡ write.len) }
        ensures act { Seals self.old.seen result self.new.seen }
        ensures later { self.old.seen.faults ≤ self.new.seen.faults }

        // It doesn't fail.
        ensures passes { is_err result ≡ false }
        ensures put { self.new
            ≡ record self.old { seen = put (open_page self.old.seen.write) self.old.seen } }
    {
        let write = self.write.unwrap();
        let bytes = self.incoming.take();
        self.shelf.push(write.page, Some(bytes));
        self.write = None;
        Ok(())
    }

    fn get(&mut self, page: PageNo, off: u64, out: &mut [u8]) -> Result<(), Failed>
        requires closed { self.old.seen.write ≡ None }
        requires there { HasBytes page.0 off (length out.old) self.old.seen }
        ensures act { Gets page.0 off self.old.seen result out.new self.new.seen }
        ensures len { length out.new ≡ length out.old }
        ensures later { self.old.seen.faults ≤ self.new.seen.faults }

        // It fails exactly at the calls listed.
        ensures fails { is_err result ≡ is_listed self.old.failing self.old.calls }
        ensures read { OnOk result (self.new ≡ passed self.old.seen self.old) }
        ensures unread { OnErr result (self.new ≡ missed self.old.seen self.old) }
    {
        let is_failing = self.schedule.fails_next();
        if is_failing {
            self.faults = self.faults.saturating_add(1);
            return Err(Failed);
        }
        self.shelf.fill(page, off, out);
        Ok(())
    }

    fn remove(&mut self, page: PageNo) -> Result<(), Failed>
        requires closed { self.old.seen.write ≡ None }
        requires there { HasFile page.0 self.old.seen }
        ensures act { Removes page.0 self.old.seen result self.new.seen }
        ensures later { self.old.seen.faults ≤ self.new.seen.faults }

        // It fails exactly at the calls listed.
        ensures fails { is_err result ≡ is_listed self.old.failing self.old.calls }
        ensures removed { OnOk result (self.new ≡ passed (removed page.0 self.old.seen) self.old) }
        ensures left { OnErr result (self.new ≡ missed self.old.seen self.old) }
    {
        let is_failing = self.schedule.fails_next();
        if is_failing {
            self.faults = self.faults.saturating_add(1);
            return Err(Failed);
        }
        self.shelf.remove(page);
        Ok(())
    }
}
