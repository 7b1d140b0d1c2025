//! Compact jobs.
ghost use Rattle.std.specs.Prelude.{List, ◌≡◌, ◌+◌, ◌-◌, ◌^◌, ◌<◌, ◌≤◌, None, Some, true, length, min, IfOk, IfSome, OnErr};
ghost use Rattle.std.specs.List.{AllByRecursion};
ghost use Rattle.page_disk.specs.declared.change.Change.{Change};
ghost use Rattle.page_disk.specs.Changes.{HasRange};
ghost use Rattle.page_files.specs.Pieces.{bytes_of, names};
ghost use Rattle.page_files.specs.Pages.{pieces_at};
ghost use Rattle.page_files.specs.Items.{IsPagedIn};
ghost use Rattle.page_files.specs.Files.{AreLeft, job_no, left_of, source_of, thin, with_job, without_pieces, Agrees};
ghost use Rattle.page_files.specs.Ends.{LeftMoved, scene, MoveEnds};

use crate::copies::names;
use crate::ending::MoveEnd;
use crate::fault::MoveFault;
use crate::held::Held;
use crate::page_files::PageFiles;
use crate::read::{ReadFault, read_all};
use crate::write::write_bytes;
use blob_words::{JobNo, NoMemory, PageNo, PieceList};
use item_shares::Shares;
use page_disk::{PageDisk, PutFault};

impl PageFiles {
    /// Starts to move the reached pieces of a thin page. Gives the job's number and the pieces, by
    /// rising offset.
    pub fn start_compact(&mut self, page: PageNo) -> Result<(JobNo, PieceList), NoMemory>
        requires idle { self.old.job ≡ None }
        requires paging { self.old.paging ≡ true }
        requires thin { thin self.old ≡ Some page }
        requires numbers { self.old.jobs < 2 ^ 31 }
        ensures ok { IfOk result (λ started. (started.0 ≡ job_no self.old.jobs)
            × (started.1 ≡ names (pieces_at self.old.pages page.0))
            × (self.new ≡ with_job (Some page) (pieces_at self.old.pages page.0) self.old)) }
        ensures err { OnErr result (self.new ≡ self.old) }
    {
        let pieces = self.table.pieces_at(self.alloc, page.0 as usize)?;
        let list = names(self.alloc, pieces.as_slice())?;
        let number = self.begin_job(Some(page), pieces.as_slice())?;
        Ok((number, list))
    }

    /// Moves the pieces left in a compact job to the next page. All of them are read first, one
    /// after the other.
    pub fn finish_compact<D: PageDisk>(
        &mut self,
        job: JobNo,
        shares: &mut Shares,
        disk: &mut D,
    ) -> Result<MoveEnd, MoveFault>
        requires closed { D.writing disk.old ≡ None }
        requires agrees { IfSome (D.changes disk.old) (Agrees self.old.pages) }
        requires items { IfSome (source_of self.old.job) (λ source.
            AllByRecursion (IsPagedIn source shares.old) (left_of self.old.job)
            × IfSome (D.changes disk.old) (λ changes. AllByRecursion
            (λ held. HasRange source.0 held.off held.len changes) (left_of self.old.job))) }
        requires numbers { length self.old.pages < 2 ^ 31 }
        ensures closed { D.writing disk.new ≡ None }
        ensures agrees { IfSome (D.changes disk.new) (Agrees self.new.pages) }
        ensures ends { MoveEnds job
            (scene D.PageDisk self.old shares.old disk.old)
            (scene D.PageDisk self.new shares.new disk.new) result }
        ensures later { D.faults disk.old ≤ D.faults disk.new }
        ensures meter { min (D.meter disk.old) (2 ^ 64 - 1) ≤ D.meter disk.new }
        ensures read { IfOk result (λ _. min (D.meter disk.new) (2 ^ 64 - 1)
            ≡ min (D.meter disk.old + bytes_of (left_of self.old.job)) (2 ^ 64 - 1)) }
    {
        let Some(source) = self.compacting() else {
            return Err(MoveFault::NoJob);
        };
        if !self.is_in_flight(job) {
            return Err(MoveFault::NoJob);
        }
        let Ok(left) = self.left() else {
            return Err(MoveFault::NoMemory);
        };
        if left.is_empty() {
            self.end_job();
            return Ok(MoveEnd::Empty);
        }
        self.move_pieces(source, left.as_slice(), shares, disk)
    }

    // Moves the pieces of the job in flight.
    fn move_pieces<D: PageDisk>(
        &mut self,
        source: PageNo,
        left: &[Held],
        shares: &mut Shares,
        disk: &mut D,
    ) -> Result<MoveEnd, MoveFault>
        requires closed { D.writing disk.old ≡ None }
        requires agrees { IfSome (D.changes disk.old) (Agrees self.old.pages) }
        requires left { AreLeft self.old.job left.now }
        requires items { AllByRecursion (IsPagedIn source shares.old) left.now }
        requires there { IfSome (D.changes disk.old) (λ changes.
            AllByRecursion (λ held. HasRange source.0 held.off held.len changes) left.now) }
        requires numbers { length self.old.pages < 2 ^ 31 }
        ensures closed { D.writing disk.new ≡ None }
        ensures agrees { IfSome (D.changes disk.new) (Agrees self.new.pages) }
        ensures ends { LeftMoved source
            (scene D.PageDisk self.old shares.old disk.old)
            (scene D.PageDisk self.new shares.new disk.new) result }
        ensures later { D.faults disk.old ≤ D.faults disk.new }
        ensures meter { min (D.meter disk.old) (2 ^ 64 - 1) ≤ D.meter disk.new }
        ensures read { IfOk result (λ _. min (D.meter disk.new) (2 ^ 64 - 1)
            ≡ min (D.meter disk.old + bytes_of left.now) (2 ^ 64 - 1)) }
    {
        let _charged = self.charged; // says that the invariant holds
        let Ok(next) = self.next_page(left) else {
            return Err(MoveFault::NoMemory);
        };
        let page = next.page;
        let buffer = match read_all(self.alloc, disk, source, left, next.size) {
            Ok(buffer) => buffer,
            Err(ReadFault::Unread) => {
                self.give_back();
                self.fail_job();
                return Err(MoveFault::Unread(source));
            }
            Err(ReadFault::NoMemory) => {
                self.give_back();
                return Err(MoveFault::NoMemory);
            }
        };
        match write_bytes(disk, page, buffer.as_slice()) {
            Ok(()) => {
                self.end_job();
                let list = self.keep(next, shares);
                self.release_all(source, left);
                Ok(MoveEnd::Moved(page, list))
            }
            Err(PutFault::Failed) => {
                self.fail_job();
                Err(MoveFault::Failed(page))
            }
            Err(PutFault::NoMemory) => {
                self.give_back();
                Err(MoveFault::NoMemory)
            }
        }
    }

    // The pieces of a page are reached there no more.
    fn release_all(&mut self, page: PageNo, pieces: &[Held])
        ensures files { self.new ≡ without_pieces page.0 pieces.now self.old }
        ensures agrees { (changes : List Change) → Agrees self.old.pages changes
            → Agrees self.new.pages changes }
    {
        for held in pieces {
            self.release_piece(page, held.piece);
        }
    }
}
