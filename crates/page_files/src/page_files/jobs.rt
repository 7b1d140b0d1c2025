//! Page jobs, and pieces that are stored as they come.
ghost use Rattle.std.specs.Prelude.{◌≡◌, ◌≢◌, ◌-◌, ◌^◌, ◌<◌, ◌≤◌, [], None, Some, true, false, length, map, nat_eq, IfOk, IfSome, IsSomeAnd, MatchResult, OnErr};
ghost use Rattle.std.specs.List.{sum_by, AllByRecursion, IsDistinct};
ghost use Rattle.item_shares.specs.Shares.{item_at};
ghost use Rattle.page_files.specs.Pieces.{named};
ghost use Rattle.page_files.specs.Items.{IsPieceIn, piece_of, IsMemoryIn, IsReservedOf};
ghost use Rattle.page_files.specs.Files.{AreLeft, source_of, is_in_flight, job_no, left_of, room, turned_off, with_job, Agrees};
ghost use Rattle.page_files.specs.Ends.{LeftWritten, scene, JobEnds, StoreEnds};

use crate::copies::named;
use crate::ending::JobEnd;
use crate::fault::{JobFault, NoJob, StoreFault};
use crate::held::Held;
use crate::page_files::PageFiles;
use crate::write::{write_bytes, write_items};
use blob_words::{JobNo, NoMemory, PageNo, PieceNo};
use item_shares::{Item, Shares};
use page_disk::{PageDisk, PutFault};

impl PageFiles {
    /// Starts to write pieces of memory to a page. Each is given with the slot of its item and its
    /// length in bytes.
    #[tactic(auto, using(crate::proofs::Lists::named_apart, crate::proofs::Lists::named_long))]
    pub fn start_job(&mut self, pieces: &[(PieceNo, usize, u64)]) -> Result<JobNo, NoMemory>
        requires idle { self.old.job ≡ None }
        requires paging { self.old.paging ≡ true }
        requires some { pieces.now ≢ [] }
        requires apart { IsDistinct nat_eq (map (λ piece. piece.0.0) pieces.now) }
        requires long { AllByRecursion (λ piece. 0 < piece.2) pieces.now }
        requires room { sum_by (λ piece. piece.2) pieces.now ≤ room self.old }
        requires numbers { self.old.jobs < 2 ^ 31 }
        ensures ok { IfOk result (λ number. (number ≡ job_no self.old.jobs)
            × (self.new ≡ with_job None (map named pieces.now) self.old)) }
        ensures err { OnErr result (self.new ≡ self.old) }
    {
        let pieces = named(self.alloc, pieces)?;
        self.begin_job(None, pieces.as_slice())
    }

    /// Ends a job of either kind whose reply was lost. Its pieces stay where they are, and paging
    /// is off.
    pub fn lose_job(&mut self, job: JobNo) -> Result<(), NoJob>
        ensures { MatchResult result
            (λ _. (is_in_flight job self.old.job ≡ true) × (self.new ≡ turned_off self.old))
            (λ _. (is_in_flight job self.old.job ≡ false) × (self.new ≡ self.old)) }
    {
        if self.in_flight() != Some(job) {
            return Err(NoJob);
        }
        self.end_job();
        self.paging = false;
        Ok(())
    }

    /// Writes the pieces left in a page job as the next page.
    pub fn finish_job<D: PageDisk>(
        &mut self,
        job: JobNo,
        shares: &mut Shares,
        disk: &mut D,
    ) -> Result<JobEnd, JobFault>
        requires closed { D.writing disk.old ≡ None }
        requires agrees { IfSome (D.changes disk.old) (Agrees self.old.pages) }
        requires items { source_of self.old.job ≡ None
            → AllByRecursion (IsMemoryIn shares.old) (left_of self.old.job) }
        requires numbers { length self.old.pages < 2 ^ 31 }
        ensures closed { D.writing disk.new ≡ None }
        ensures agrees { IfSome (D.changes disk.new) (Agrees self.new.pages) }
        ensures ends { JobEnds job
            (scene D.PageDisk self.old shares.old disk.old)
            (scene D.PageDisk self.new shares.new disk.new) result }
        ensures later { D.faults disk.old ≤ D.faults disk.new }
        ensures meter { D.meter disk.new ≡ D.meter disk.old }
    {
        if !self.is_in_flight(job) || self.compacting().is_some() {
            return Err(JobFault::NoJob);
        }
        let Ok(left) = self.left() else {
            return Err(JobFault::NoMemory);
        };
        if left.is_empty() {
            self.end_job();
            return Ok(JobEnd::Empty);
        }
        self.write_left(left.as_slice(), shares, disk)
    }

    // Writes the pieces of the job in flight.
    fn write_left<D: PageDisk>(
        &mut self,
        left: &[Held],
        shares: &mut Shares,
        disk: &mut D,
    ) -> Result<JobEnd, JobFault>
        requires closed { D.writing disk.old ≡ None }
        requires agrees { IfSome (D.changes disk.old) (Agrees self.old.pages) }
        requires left { AreLeft self.old.job left.now }
        requires items { AllByRecursion (IsMemoryIn shares.old) left.now }
        requires numbers { length self.old.pages < 2 ^ 31 }
        ensures closed { D.writing disk.new ≡ None }
        ensures agrees { IfSome (D.changes disk.new) (Agrees self.new.pages) }
        ensures ends { LeftWritten
            (scene D.PageDisk self.old shares.old disk.old)
            (scene D.PageDisk self.new shares.new disk.new) result }
        ensures later { D.faults disk.old ≤ D.faults disk.new }
        ensures meter { D.meter disk.new ≡ D.meter disk.old }
    {
        let _charged = self.charged; // says that the invariant holds
        let Ok(next) = self.next_page(left) else {
            return Err(JobFault::NoMemory);
        };
        let page = next.page;
        match write_items(disk, page, next.size, left, shares) {
            Ok(()) => {
                self.end_job();
                let list = self.keep(next, shares);
                Ok(JobEnd::Paged(page, list))
            }
            Err(PutFault::Failed) => {
                self.fail_job();
                Err(JobFault::Failed(page))
            }
            Err(PutFault::NoMemory) => {
                self.give_back();
                Err(JobFault::NoMemory)
            }
        }
    }

    /// Writes a reserved piece, whose item is in this slot, to a page of its own.
    pub fn store_piece<D: PageDisk>(
        &mut self,
        slot: usize,
        bytes: &[u8],
        shares: &mut Shares,
        disk: &mut D,
    ) -> Result<PageNo, StoreFault>
        requires closed { D.writing disk.old ≡ None }
        requires agrees { IfSome (D.changes disk.old) (Agrees self.old.pages) }
        requires item { IsSomeAnd (item_at shares.old slot) (IsReservedOf (length bytes.now)) }
        requires some { 0 < length bytes.now }
        requires reserved { length bytes.now ≤ self.old.reserved }
        requires numbers { length self.old.pages < 2 ^ 31 }
        ensures closed { D.writing disk.new ≡ None }
        ensures agrees { IfSome (D.changes disk.new) (Agrees self.new.pages) }
        ensures ends { IfSome (item_at shares.old slot) (λ item.
            StoreEnds (piece_of item) slot bytes.now
            (scene D.PageDisk self.old shares.old disk.old)
            (scene D.PageDisk self.new shares.new disk.new) result) }
        ensures later { D.faults disk.old ≤ D.faults disk.new }
        ensures meter { D.meter disk.new ≡ D.meter disk.old }
    {
        let Some(Item::Reserved { piece, len }) = shares.get(slot) else {
            unreachable!()
        };
        let held = Held {
            piece: *piece,
            slot,
            off: 0,
            len: *len,
        };
        self.store_held(held, bytes, shares, disk)
    }

    // Writes the bytes of a reserved piece to the next page.
    fn store_held<D: PageDisk>(
        &mut self,
        held: Held,
        bytes: &[u8],
        shares: &mut Shares,
        disk: &mut D,
    ) -> Result<PageNo, StoreFault>
        requires closed { D.writing disk.old ≡ None }
        requires agrees { IfSome (D.changes disk.old) (Agrees self.old.pages) }
        requires item { IsPieceIn shares.old held }
        requires some { 0 < length bytes.now }
        requires len { held.len ≡ length bytes.now }
        requires reserved { length bytes.now ≤ self.old.reserved }
        requires numbers { length self.old.pages < 2 ^ 31 }
        ensures closed { D.writing disk.new ≡ None }
        ensures agrees { IfSome (D.changes disk.new) (Agrees self.new.pages) }
        ensures ends { StoreEnds held.piece held.slot bytes.now
            (scene D.PageDisk self.old shares.old disk.old)
            (scene D.PageDisk self.new shares.new disk.new) result }
        ensures later { D.faults disk.old ≤ D.faults disk.new }
        ensures meter { D.meter disk.new ≡ D.meter disk.old }
    {
        let _charged = self.charged; // says that the invariant holds
        let Ok(next) = self.next_page(&[held]) else {
            return Err(StoreFault::NoMemory);
        };
        let page = next.page;
        match write_bytes(disk, page, bytes) {
            Ok(()) => {
                self.unreserve(held.len);
                let _ = self.keep(next, shares);
                Ok(page)
            }
            Err(PutFault::Failed) => Err(StoreFault::Failed(page)),
            Err(PutFault::NoMemory) => {
                self.give_back();
                Err(StoreFault::NoMemory)
            }
        }
    }
}
