//! The lists one after the other: all that is owed after a line.
ghost use Rattle.std.specs.Prelude.{◌≡◌, ◌≤◌, IfSome, List, None, OnOk, Option};
ghost use Rattle.data_handles.specs.Boxes.{of_table};
ghost use Rattle.data_handles.specs.Table.{Table};
ghost use Rattle.page_disk.specs.declared.change.Change.{Change};
ghost use Rattle.page_files.specs.Files.{Agrees};
ghost use Rattle.store_laws.specs.LateLaws.{IsSwept};

use crate::parts::Parts;
use answer_text::Answers;
use blob_words::NoMemory;
use data_handles::{Boxed, DataHandle, HandleTable};
use page_disk::PageDisk;

impl Parts {
    ghost use Rattle.blob_store.specs.Says.{scene};
    ghost use Rattle.blob_store.specs.Seen.{parts_of};
    ghost use Rattle.blob_store.specs.Settling.{DropsAndEnds, MakesRoom, Settles};
    ghost use Rattle.blob_store.specs.Unheld.{HaveObjects};
    ghost use Rattle.blob_store.specs.Whole.{IsWhole};

    // Lists 1 to 3: what nobody holds goes, before blobs end and behind it.
    fn drop_and_end(
        &mut self,
        handles: &mut HandleTable,
        answers: &mut Answers,
    ) -> Result<(), NoMemory>
        requires whole { IsWhole self.old }
        requires objects { HaveObjects self.old.shares
            (of_table ⟦<Boxed as DataHandle>⟧.seen handles.old) }
        ensures whole { OnOk result (IsWhole self.new) }
        ensures swept { OnOk result (IsSwept (parts_of self.new)) }
        ensures objects { OnOk result (HaveObjects self.new.shares
            (of_table ⟦<Boxed as DataHandle>⟧.seen handles.new)) }
        ensures ends { OnOk result ((told : Option (List Change))
            → DropsAndEnds answers.old answers.new
            (scene self.old told (of_table ⟦<Boxed as DataHandle>⟧.seen handles.old))
            (scene self.new told (of_table ⟦<Boxed as DataHandle>⟧.seen handles.new))) }
        ensures agrees { OnOk result ((changes : List Change)
            → Agrees self.old.pages.pages changes → Agrees self.new.pages.pages changes) }
    {
        let _first = self.renderers.first_alive(); // says that the numbers are in order
        let _count = self.registry.registered(); // says that the entries are sound
        let Ok(()) = self.drop_unheld(handles, answers) else {
            return Err(NoMemory);
        };
        let Ok(()) = self.end_blobs(answers) else {
            return Err(NoMemory);
        };
        let Ok(()) = self.drop_unheld(handles, answers) else {
            return Err(NoMemory);
        };
        let _end = self.shares.end(); // says that no item stands without a view
        Ok(())
    }

    // Lists 4 to 7: page files go, those that wait are granted, and a job starts.
    fn make_room<D: PageDisk>(
        &mut self,
        disk: &mut D,
        answers: &mut Answers,
    ) -> Result<(), NoMemory>
        requires whole { IsWhole self.old }
        requires swept { IsSwept (parts_of self.old) }
        requires closed { D.writing disk.old ≡ None }
        requires agrees { IfSome (D.changes disk.old) (Agrees self.old.pages.pages) }
        ensures whole { OnOk result (IsWhole self.new) }
        ensures swept { OnOk result (IsSwept (parts_of self.new)) }
        ensures items { self.new.shares ≡ self.old.shares }
        ensures room { OnOk result ((table : Table) → MakesRoom answers.old answers.new
            (scene self.old (D.changes disk.old) table)
            (scene self.new (D.changes disk.new) table)) }
        ensures closed { D.writing disk.new ≡ None }
        ensures agrees { IfSome (D.changes disk.new) (Agrees self.new.pages.pages) }
        ensures later { D.faults disk.old ≤ D.faults disk.new }
        ensures meter { D.meter disk.new ≡ D.meter disk.old }
    {
        let Ok(()) = self.remove_pages(disk, answers) else {
            return Err(NoMemory);
        };
        let Ok(()) = self.grant_waiting(answers) else {
            return Err(NoMemory);
        };
        let Ok(()) = self.start_page_job(answers) else {
            return Err(NoMemory);
        };
        self.start_compaction(answers)
    }

    /// All that is owed after a line is done and told. After want of memory the parts are only to
    /// be dropped.
    pub fn settle<D: PageDisk>(
        &mut self,
        handles: &mut HandleTable,
        disk: &mut D,
        answers: &mut Answers,
    ) -> Result<(), NoMemory>
        requires whole { IsWhole self.old }
        requires objects { HaveObjects self.old.shares
            (of_table ⟦<Boxed as DataHandle>⟧.seen handles.old) }
        requires closed { D.writing disk.old ≡ None }
        requires agrees { IfSome (D.changes disk.old) (Agrees self.old.pages.pages) }
        ensures whole { OnOk result (IsWhole self.new) }
        ensures objects { OnOk result (HaveObjects self.new.shares
            (of_table ⟦<Boxed as DataHandle>⟧.seen handles.new)) }
        ensures settles { OnOk result (Settles answers.old answers.new
            (scene self.old (D.changes disk.old)
            (of_table ⟦<Boxed as DataHandle>⟧.seen handles.old))
            (scene self.new (D.changes disk.new)
            (of_table ⟦<Boxed as DataHandle>⟧.seen handles.new))) }
        ensures closed { D.writing disk.new ≡ None }
        ensures agrees { OnOk result
            (IfSome (D.changes disk.new) (Agrees self.new.pages.pages)) }
        ensures later { D.faults disk.old ≤ D.faults disk.new }
        ensures meter { D.meter disk.new ≡ D.meter disk.old }
    {
        let Ok(()) = self.drop_and_end(handles, answers) else {
            return Err(NoMemory);
        };
        self.make_room(disk, answers)
    }
}
