//! List 6: where somebody waits, pieces used earliest are written to a page file.
ghost use Rattle.std.specs.Prelude.{◌≡◌, ◌≢◌, List, Option, [], map, IfOk, OnOk};
ghost use Rattle.std.specs.List.{AllByRecursion};
ghost use Rattle.data_handles.specs.Table.{Table};
ghost use Rattle.page_disk.specs.declared.change.Change.{Change};
ghost use Rattle.page_files.specs.Files.{Agrees, job_no};
ghost use Rattle.blob_model.specs.Pages.{numbers};
ghost use Rattle.blob_model.specs.Settle.{page_jobs};
ghost use Rattle.store_laws.specs.LateJobs.{without_all};
ghost use Rattle.store_laws.specs.LateLaws.{IsSwept};

use crate::parts::Parts;
use answer_text::{Answer, Answers};
use blob_words::{JobNo, NoMemory, PieceList, PieceNo};
use item_shares::Item;
use recent_items::Recent;

// How many jobs a store starts at most.
pub const MOST_JOBS: u32 = 1 << 31;

// These pieces are in the order of use no more.
fn leave_all(recent: &mut Recent, pieces: &[PieceNo])
    ensures { recent.new ≡ without_all (numbers pieces.now) recent.old }
{
    for piece in pieces {
        recent.leave(*piece);
    }
}

impl Parts {
    ghost use Rattle.blob_store.specs.Paging.{earliest, lacking, to_page};
    ghost use Rattle.blob_store.specs.Paging.{AreAtHome, CanStart, IsAtHome, IsHere, JobStarts};
    ghost use Rattle.blob_store.specs.Says.{scene};
    ghost use Rattle.blob_store.specs.Seen.{parts_of};
    ghost use Rattle.blob_store.specs.Telling.{Tells};
    ghost use Rattle.blob_store.specs.Whole.{IsWhole};

    // The bytes that the head of the queue lacks.
    fn lacking(&self) -> u64
        requires { self.now.quota.limit ≡ self.now.limits.memory }
        ensures { result ≡ lacking self.now }
    {
        let bytes = match self.quota.head() {
            Some((_, bytes)) => bytes,
            None => 0,
        };
        bytes.saturating_sub(self.limits.memory - self.quota.used())
    }

    // The pieces used earliest that make room for the head of the queue.
    fn earliest(&self) -> Result<PieceList, NoMemory>
        requires memory { self.now.quota.limit ≡ self.now.limits.memory }
        requires disk { self.now.pages.limit ≡ self.now.limits.disk }
        ensures { IfOk result (λ pieces. numbers pieces ≡ earliest self.now) }
    {
        let room = self.limits.disk - self.pages.charged();
        self.recent.victims(self.lacking(), self.limits.page, room)
    }

    // The pieces to page now.
    fn to_page(&self) -> Result<PieceList, NoMemory>
        requires memory { self.now.quota.limit ≡ self.now.limits.memory }
        requires disk { self.now.pages.limit ≡ self.now.limits.disk }
        ensures { IfOk result (λ pieces. numbers pieces ≡ to_page self.now) }
    {
        if !self.pages.paging() {
            return Ok(PieceList::new(self.alloc));
        }
        if self.pages.in_flight().is_some() {
            return Ok(PieceList::new(self.alloc));
        }
        if self.quota.waiting() == 0 {
            return Ok(PieceList::new(self.alloc));
        }
        self.earliest()
    }

    // A piece in memory with its home and its length.
    fn at_home(&self, piece: PieceNo) -> (PieceNo, usize, u64)
        requires { IsHere self.now.shares self.now.homes piece.0 }
        ensures piece { result.0 ≡ piece }
        ensures home { IsAtHome self.now.homes self.now.shares result }
    {
        let slot = self.homes.as_slice()[piece.0 as usize];
        let Some(Item::Memory { bytes, .. }) = self.shares.get(slot) else {
            unreachable!()
        };
        (piece, slot, bytes.len() as u64)
    }

    // Each of these pieces so.
    fn at_homes(&self, pieces: &[PieceNo]) -> Result<Vec<(PieceNo, usize, u64)>, NoMemory>
        requires { AllByRecursion (λ piece. IsHere self.now.shares self.now.homes piece.0)
            pieces.now }
        ensures { IfOk result (λ given. AreAtHome self.now.homes self.now.shares pieces.now
            given.items) }
    {
        let mut given = Vec::new(self.alloc);
        for piece in pieces {
            given.push(self.at_home(*piece))?;
        }
        Ok(given)
    }

    // A job starts to page the pieces used earliest. Numbers of jobs end.
    fn begin_page_job(&mut self, pieces: &[PieceNo]) -> Result<JobNo, NoMemory>
        requires some { pieces.now ≢ [] }
        requires earliest { numbers pieces.now ≡ earliest self.old }
        requires starts { CanStart self.old }
        ensures number { IfOk result (λ number. number ≡ job_no self.old.pages.jobs) }
        ensures starts { OnOk result (JobStarts (numbers pieces.now) self.old self.new) }
        ensures shares { self.new.shares ≡ self.old.shares }
        ensures pages { self.new.pages.pages ≡ self.old.pages.pages }
    {
        if self.pages.jobs_started() >= MOST_JOBS {
            return Err(NoMemory);
        }
        let _apart = self.recent.victims(0, 0, 0); // says that no piece is there twice
        let Ok(given) = self.at_homes(pieces) else {
            return Err(NoMemory);
        };
        let Ok(number) = self.pages.start_job(given.as_slice()) else {
            return Err(NoMemory);
        };
        leave_all(&mut self.recent, pieces);
        Ok(number)
    }

    /// A job starts to page pieces of memory, where somebody waits and none is in flight, and is
    /// told. After want of memory the parts are only to be dropped.
    #[tactic(auto, unfolding(crate::specs::Whole::IsWhole))]
    pub fn start_page_job(&mut self, answers: &mut Answers) -> Result<(), NoMemory>
        requires whole { IsWhole self.old }
        requires swept { IsSwept (parts_of self.old) }
        ensures whole { OnOk result (IsWhole self.new) }
        ensures swept { OnOk result (IsSwept (parts_of self.new)) }
        ensures tells { OnOk result ((told : Option (List Change)) → (table : Table)
            → Tells page_jobs answers.old answers.new (scene self.old told table)
            (scene self.new told table)) }
        ensures items { self.new.shares ≡ self.old.shares }
        ensures agrees { (changes : List Change) → Agrees self.old.pages.pages changes
            → Agrees self.new.pages.pages changes }
    {
        let Ok(pieces) = self.to_page() else {
            return Err(NoMemory);
        };
        if pieces.as_slice().is_empty() {
            return Ok(());
        }
        let Ok(number) = self.begin_page_job(pieces.as_slice()) else {
            return Err(NoMemory);
        };
        answers.push(Answer::Job(number, pieces))
    }
}
