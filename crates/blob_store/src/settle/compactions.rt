//! List 7: the pieces of a thin page file are moved to a new one.
ghost use Rattle.std.specs.Prelude.{◌≡◌, List, Option, Some, IfOk, OnOk};
ghost use Rattle.data_handles.specs.Table.{Table};
ghost use Rattle.page_disk.specs.declared.change.Change.{Change};
ghost use Rattle.page_files.specs.Files.{Agrees, job_no};
ghost use Rattle.page_files.specs.Pages.{pieces_at};
ghost use Rattle.page_files.specs.Pieces.{names};
ghost use Rattle.blob_model.specs.Settle.{compactions};
ghost use Rattle.store_laws.specs.LateLaws.{IsSwept};

use crate::parts::Parts;
use crate::settle::page_jobs::MOST_JOBS;
use answer_text::{Answer, Answers};
use blob_words::{JobNo, NoMemory, PageNo, PieceList};

impl Parts {
    ghost use Rattle.blob_store.specs.Compacting.{to_compact, with_compaction};
    ghost use Rattle.blob_store.specs.Says.{scene};
    ghost use Rattle.blob_store.specs.Seen.{parts_of};
    ghost use Rattle.blob_store.specs.Telling.{Tells};
    ghost use Rattle.blob_store.specs.Whole.{IsWhole};

    // The page file to move now.
    fn to_compact(&self) -> Option<PageNo>
        ensures { result ≡ to_compact self.now }
    {
        if !self.pages.paging() {
            return None;
        }
        if self.pages.in_flight().is_some() {
            return None;
        }
        self.pages.thin()
    }

    // A job starts to move the pieces that this page file holds. Numbers of jobs end.
    fn begin_compaction(&mut self, page: PageNo) -> Result<(JobNo, PieceList), NoMemory>
        requires { to_compact self.old ≡ Some page }
        ensures number { IfOk result (λ job. job.0 ≡ job_no self.old.pages.jobs) }
        ensures pieces { IfOk result (λ job.
            job.1 ≡ names (pieces_at self.old.pages.pages page.0)) }
        ensures starts { OnOk result (self.new ≡ with_compaction page self.old) }
        ensures shares { self.new.shares ≡ self.old.shares }
        ensures pages { self.new.pages.pages ≡ self.old.pages.pages }
    {
        if self.pages.jobs_started() >= MOST_JOBS {
            return Err(NoMemory);
        }
        self.pages.start_compact(page)
    }

    /// A job starts to move the pieces of the least thin page file for which the disk has room,
    /// where none is in flight, and is told. After want of memory the parts are only to be dropped.
    #[tactic(auto, unfolding(crate::specs::Whole::IsWhole))]
    pub fn start_compaction(&mut self, answers: &mut Answers) -> Result<(), NoMemory>
        requires whole { IsWhole self.old }
        requires swept { IsSwept (parts_of self.old) }
        ensures whole { OnOk result (IsWhole self.new) }
        ensures swept { OnOk result (IsSwept (parts_of self.new)) }
        ensures tells { OnOk result ((told : Option (List Change)) → (table : Table)
            → Tells compactions answers.old answers.new (scene self.old told table)
            (scene self.new told table)) }
        ensures items { self.new.shares ≡ self.old.shares }
        ensures agrees { (changes : List Change) → Agrees self.old.pages.pages changes
            → Agrees self.new.pages.pages changes }
    {
        let Some(page) = self.to_compact() else {
            return Ok(());
        };
        let Ok((number, pieces)) = self.begin_compaction(page) else {
            return Err(NoMemory);
        };
        answers.push(Answer::Compacting(number, page, pieces))
    }
}
