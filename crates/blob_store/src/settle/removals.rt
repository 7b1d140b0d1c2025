//! List 4: page files that hold nothing any more are removed.
ghost use Rattle.std.specs.Prelude.{◌≡◌, ◌≤◌, IfSome, None, OnOk};
ghost use Rattle.data_handles.specs.Table.{Table};
ghost use Rattle.page_files.specs.Files.{Agrees};
ghost use Rattle.store_laws.specs.LateLaws.{told_of, IsSwept};

use crate::parts::Parts;
use answer_text::{Answer, Answers};
use blob_words::{NoMemory, PageNo};
use page_disk::PageDisk;

// How it is told that the removal of a page was asked for, and whether it went.
fn removal_of(page: PageNo, goes: bool) -> Answer
    ensures { result ≡ told_of (page.0, goes) }
{
    if goes {
        Answer::Removed(page)
    } else {
        Answer::Left(page)
    }
}

impl Parts {
    ghost use Rattle.blob_store.specs.Says.{scene};
    ghost use Rattle.blob_store.specs.Seen.{parts_of};
    ghost use Rattle.blob_store.specs.Telling.{Removes};
    ghost use Rattle.blob_store.specs.Whole.{IsWhole};

    /// Each page file that was written whole and holds no reached piece is asked to be removed, the
    /// least first, and it is told whether it went. After want of memory the parts are only to be
    /// dropped.
    #[tactic(auto, unfolding(crate::specs::Whole::IsWhole))]
    pub(crate) fn remove_pages<D: PageDisk>(
        &mut self,
        disk: &mut D,
        answers: &mut Answers,
    ) -> Result<(), NoMemory>
        requires whole { IsWhole self.old }
        requires swept { IsSwept (parts_of self.old) }
        requires closed { D.writing disk.old ≡ None }
        requires agrees { IfSome (D.changes disk.old) (Agrees self.old.pages.pages) }
        ensures whole { OnOk result (IsWhole self.new) }
        ensures swept { OnOk result (IsSwept (parts_of self.new)) }
        ensures closed { D.writing disk.new ≡ None }
        ensures agrees { IfSome (D.changes disk.new) (Agrees self.new.pages.pages) }
        ensures items { self.new.shares ≡ self.old.shares }
        ensures removes { OnOk result ((table : Table) → Removes answers.old answers.new
            (scene self.old (D.changes disk.old) table)
            (scene self.new (D.changes disk.new) table)) }
        ensures later { D.faults disk.old ≤ D.faults disk.new }
        ensures meter { D.meter disk.new ≡ D.meter disk.old }
    {
        while let Some((page, goes)) = self.pages.remove_due(disk) {
            let answer = removal_of(page, goes);
            let Ok(()) = answers.push(answer) else {
                return Err(NoMemory);
            };
        }
        Ok(())
    }
}
