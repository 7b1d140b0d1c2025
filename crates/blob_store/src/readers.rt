//! The open readers by their numbers.
ghost use Rattle.std.specs.Prelude.{ℕ, ◌≡◌, [], None, false, length, IfNone, IfSome, OnErr, OnOk};
ghost use Rattle.std.specs.Option.{option_copied};
ghost use Rattle.blob_store.specs.Readers.{is_own, reader_at, Closes, ClosesFrom, Opens};
ghost use Rattle.blob_store.specs.Steps.{IsStepped};
ghost use Rattle.std.specs.Prelude.{◌^◌, ◌-◌, ◌<◌, ◌≤◌, min, IsSomeAnd};
ghost use Rattle.std.specs.List.{AllByRecursion};
ghost use Rattle.blob_items.specs.Cells.{total};
ghost use Rattle.data_handles.specs.Boxes.{of_table};
ghost use Rattle.range_reader.specs.Bytes.{origins};
ghost use Rattle.range_reader.specs.Places.{ViewLies};
ghost use Rattle.range_reader.specs.Steps.{asked};

use crate::owners::{Owners, pop_number, put_number, take_number};
use blob_items::ViewList;
use blob_words::{BlobName, NoMemory, ReaderId, RendererId};
use data_handles::{Boxed, DataHandle, HandleTable};
use file_table::FileTable;
use item_shares::Shares;
use page_disk::PageDisk;
use range_reader::{Reader, StepEnd};
use std::alloc::Global;
use std::collections::BTreeMap;
use std::marker::Model;

/// An open reader: whose it is, its blob, and where it stands in its range.
#[derive(Debug, Drop)]
pub struct OpenReader {
    pub owner: RendererId,
    pub blob: BlobName,
    pub course: Reader,
}

/// The open readers. Contracts see them by their numbers, in rising order.
#[derive(Debug, Drop)]
pub struct Readers {
    alloc: Global,
    // Numbers come from outside: an ordered map, so that no choice of them makes a look-up slow.
    by_number: BTreeMap<u32, OpenReader>,
    // An index of the numbers, so that an owner's readers are found without those of others.
    owners: Owners,
}

impl Model for Readers {
    ghost use Rattle.std.specs.Prelude.{ℕ, List};
    ghost use Rattle.blob_store.specs.declared.readers.OpenReader.{OpenReader};
    ghost use Rattle.blob_store.specs.Owners.{Agree};

    ghost Value = { List (ℕ × OpenReader) };

    ghost view = { λ readers. readers.by_number.entries };

    ghost invariant = { λ readers. Agree readers.by_number.entries readers.owners.entries };
}

impl Readers {
    /// No reader.
    pub fn new(alloc: Global) -> Readers
        ensures { result ≡ [] }
    {
        Readers {
            alloc,
            by_number: BTreeMap::new(alloc),
            owners: BTreeMap::new(alloc),
        }
    }

    /// How many are open.
    pub fn count(&self) -> usize
        ensures { result ≡ length self.now }
    {
        self.by_number.len()
    }

    /// The open reader of a number.
    pub fn find(&self, number: ReaderId) -> Option<&OpenReader>
        ensures { option_copied result ≡ reader_at number.0 self.now }
    {
        self.by_number.get(&number.0)
    }

    /// Opens a reader under a number under which none is open.
    pub fn add(&mut self, number: ReaderId, reader: OpenReader) -> Result<(), NoMemory>
        requires { reader_at number.0 self.old ≡ None }
        ensures ok { OnOk result (Opens number.0 reader self.old self.new) }
        ensures err { OnErr result (self.new ≡ self.old) }
    {
        let _count = self.by_number.len(); // says that the numbers are apart
        let owner = reader.owner;
        self.by_number.insert(number.0, reader)?;
        if put_number(&mut self.owners, self.alloc, owner.0, number.0).is_err() {
            let _ = self.by_number.remove(&number.0);
            return Err(NoMemory);
        }
        Ok(())
    }

    /// Closes the reader of a number, where one is open.
    pub fn close(&mut self, number: ReaderId) -> Option<OpenReader>
        ensures taken { result ≡ reader_at number.0 self.old }
        ensures closed { Closes number.0 self.old self.new }
    {
        let _count = self.by_number.len(); // says that the numbers are apart
        let reader = self.by_number.remove(&number.0)?;
        take_number(&mut self.owners, reader.owner.0, number.0);
        Some(reader)
    }

    /// Closes the reader of a renderer that has the least number.
    pub fn close_first(&mut self, owner: RendererId) -> Option<OpenReader>
        ensures closed { IfSome result (λ reader.
            ClosesFrom owner.0 reader self.old self.new) }
        ensures none { IfNone result ((self.new ≡ self.old)
            × ((number : ℕ) → is_own owner.0 (reader_at number self.old) ≡ false)) }
    {
        let _count = self.by_number.len(); // says that the numbers are apart
        let number = pop_number(&mut self.owners, owner.0)?;
        let reader = self.by_number.remove(&number)?;
        Some(reader)
    }

    /// Lets an open reader read the next bytes of its range into the front of `out`.
    pub fn step<D: PageDisk>(
        &mut self,
        number: ReaderId,
        views: &ViewList,
        shares: &Shares,
        files: &FileTable,
        disk: &mut D,
        handles: &mut HandleTable,
        out: &mut [u8],
    ) -> StepEnd
        requires closed { D.writing disk.old ≡ None }
        requires room { 0 < length out.old }
        requires size { IsSomeAnd (reader_at number.0 self.old)
            (λ one. total views.now ≡ one.course.size) }
        requires lie { AllByRecursion (ViewLies
            (origins files.now (D.changes disk.old)
            (of_table ⟦<Boxed as DataHandle>⟧.seen handles.old)) shares.now)
            views.now }
        ensures closed { D.writing disk.new ≡ None }
        ensures same { D.changes disk.new ≡ D.changes disk.old }
        ensures stepped { IsSomeAnd (reader_at number.0 self.old) (λ one.
            IsStepped number.0 one shares.now views.now (length out.old)
            (asked files.now (D.changes disk.old)
            (of_table ⟦<Boxed as DataHandle>⟧.seen handles.old)
            (D.faults disk.old) (D.meter disk.old))
            (asked files.now (D.changes disk.new)
            (of_table ⟦<Boxed as DataHandle>⟧.seen handles.new)
            (D.faults disk.new) (D.meter disk.new)) out.new result self.old self.new) }
        ensures later { D.faults disk.old ≤ D.faults disk.new }
        ensures meter { min (D.meter disk.old) (2 ^ 64 - 1) ≤ D.meter disk.new }
    {
        let Some(open) = self.by_number.get_mut(&number.0) else {
            unreachable!()
        };
        open.course.step(views, shares, files, disk, handles, out)
    }
}
