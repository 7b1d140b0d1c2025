//! The store as its users see it.
ghost use Rattle.std.specs.Prelude.{◌≡◌, ◌≤◌, true, None, IfOk, IfSome, is_some};
ghost use Rattle.std.specs.Option.{option_map};
ghost use Rattle.blob_store.specs.Begins.{Begins};
ghost use Rattle.blob_store.specs.Closing.{LetsGo};
ghost use Rattle.blob_store.specs.New.{IsNew};
ghost use Rattle.blob_store.specs.Readers.{reader_at};
ghost use Rattle.data_handles.specs.Boxes.{of_table};
ghost use Rattle.page_files.specs.Files.{all_asked, Agrees, Closes};

use crate::freed::release_claimed;
use crate::parts::Parts;
use blob_words::{JobNo, Limits, NoMemory, ReaderId, Version};
use data_handles::{Boxed, DataHandle, HandleTable};
use page_disk::PageDisk;
use page_files::Closed;
use std::alloc::Global;
use std::marker::Model;

/// A store of blobs. Its parts agree with one another unless memory wanted in a line. Contracts see
/// the parts.
#[derive(Debug, Drop)]
pub struct BlobStore {
    parts: Parts,
}

impl Model for BlobStore {
    ghost use Rattle.std.specs.Prelude.{◌≡◌, false};
    ghost use Rattle.blob_store.specs.declared.parts.Parts.{Parts};
    ghost use Rattle.blob_store.specs.Whole.{IsWhole};

    ghost Value = { Parts };

    ghost view = { λ store. store.parts };

    ghost invariant = { λ store. store.parts.is_spent ≡ false → IsWhole store.parts };
}

impl BlobStore {
    /// A store that has heard nothing.
    pub fn new(alloc: Global, limits: Limits, version: Version) -> Result<BlobStore, NoMemory>
        ensures empty { IfOk result (IsNew limits version) }
        ensures begins { IfOk result (Begins limits version) }
    {
        let parts = Parts::new(alloc, limits, version)?;
        Ok(BlobStore { parts })
    }

    /// The job in flight.
    pub fn in_flight(&self) -> Option<JobNo>
        ensures { result ≡ option_map (λ job. job.number) self.now.pages.job }
    {
        self.parts.pages.in_flight()
    }

    /// Whether a reader of this number is open.
    pub fn reader_open(&self, number: ReaderId) -> bool
        ensures { result ≡ is_some (reader_at number.0 self.now.readers) }
    {
        self.parts.readers.find(number).is_some()
    }

    /// Asks once for the removal of each page file not asked for before, by rising number, and
    /// drops the object in each data handle's slot that was claimed. The store is spent then.
    pub fn close<D: PageDisk>(&mut self, disk: &mut D, handles: &mut HandleTable) -> Closed
        requires closed { D.writing disk.old ≡ None }
        requires agrees { IfSome (D.changes disk.old) (Agrees self.old.pages.pages) }
        ensures closed { D.writing disk.new ≡ None }
        ensures agrees { IfSome (D.changes disk.new) (Agrees self.new.pages.pages) }
        ensures spent { self.new ≡ record self.old {
          is_spent = true;
          pages = record self.old.pages { pages = all_asked self.old.pages.pages };
        } }
        ensures once { Closes self.old.pages.pages (D.changes disk.old) (D.changes disk.new)
            (D.faults disk.old) (D.faults disk.new) result }
        ensures objects { LetsGo (of_table ⟦<Boxed as DataHandle>⟧.seen handles.old)
            (of_table ⟦<Boxed as DataHandle>⟧.seen handles.new) }
        ensures later { D.faults disk.old ≤ D.faults disk.new }
        ensures meter { D.meter disk.new ≡ D.meter disk.old }
    {
        self.parts.is_spent = true;
        release_claimed(handles);
        self.parts.pages.close(disk)
    }
}
