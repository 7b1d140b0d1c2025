//! Lists 1 and 3: what nobody holds goes.
ghost use Rattle.std.specs.Prelude.{◌≡◌, ◌++◌, List, Option, map, IfOk, OnOk};
ghost use Rattle.answer_text.specs.declared.answer.Answer.TheVariants.{Dropped};
ghost use Rattle.blob_entries.specs.Book.{book_of};
ghost use Rattle.blob_entries.specs.Sound.{AreSound};
ghost use Rattle.blob_registry.specs.Sweeps.{swept, Sweeping};
ghost use Rattle.data_handles.specs.Boxes.{of_table};
ghost use Rattle.item_shares.specs.Shares.{AreViewed};
ghost use Rattle.page_disk.specs.declared.change.Change.{Change};
ghost use Rattle.page_files.specs.Files.{Agrees};

use crate::freed::{discharge, release};
use crate::parts::Parts;
use answer_text::{Answer, Answers};
use blob_registry::swept::Swept;
use blob_words::{BlobName, NoMemory};
use data_handles::{Boxed, DataHandle, HandleTable};

/// Tells of each of these blobs that it was dropped.
pub fn tell_dropped(answers: &mut Answers, dropped: &[BlobName]) -> Result<(), NoMemory>
    ensures { OnOk result
        (answers.new ≡ answers.old ++ map (λ name. Dropped name) dropped.now) }
{
    for name in dropped {
        answers.push(Answer::Dropped(*name))?;
    }
    Ok(())
}

impl Parts {
    ghost use Rattle.blob_store.specs.Gone.{AreGone};
    ghost use Rattle.blob_store.specs.Says.{scene};
    ghost use Rattle.blob_store.specs.Unheld.{Drops, DropsBehind, EntriesGo, HaveObjects};
    ghost use Rattle.blob_store.specs.Whole.{IsCharged, IsWhole};

    /// The entries that don't live go, and the items that nothing views any more. After want of
    /// memory the parts are only to be dropped.
    #[tactic(auto, unfolding(crate::specs::Whole::IsCharged))]
    pub fn sweep_entries(&mut self) -> Result<Swept, NoMemory>
        requires { IsCharged self.old }
        ensures swept { IfOk result (λ swept. Sweeping self.old.registry self.new.registry
            swept.dropped self.old.shares self.new.shares swept.freed) }
        ensures gone { IfOk result (λ swept. AreGone swept.freed self.old self.new) }
        ensures charged { OnOk result (IsCharged self.new) }
        ensures viewed { OnOk result (AreViewed self.new.shares) }
        ensures agrees { (changes : List Change) → Agrees self.old.pages.pages changes
            → Agrees self.new.pages.pages changes }
    {
        let Ok(swept) = self.registry.sweep(&mut self.shares) else {
            return Err(NoMemory);
        };
        discharge(
            &mut self.quota,
            &mut self.pages,
            &mut self.recent,
            &mut self.held,
            swept.freed.as_slice(),
        );
        let _end = self.shares.end(); // says that no item stands without a view
        Ok(swept)
    }

    // The entries that don't live go, what nothing views or has on its way any more, and what was
    // to come for the blobs that were unfinished.
    #[tactic(auto, unfolding(crate::specs::Whole::IsCharged, crate::specs::Whole::IsWhole))]
    fn drop_entries(&mut self) -> Result<Swept, NoMemory>
        requires { IsWhole self.old }
        ensures whole { OnOk result (IsWhole self.new) }
        ensures goes { IfOk result (λ swept. EntriesGo swept.dropped swept.freed
            self.old self.new) }
        ensures sound { AreSound self.old.registry.names self.old.registry.entries }
        ensures agrees { (changes : List Change) → Agrees self.old.pages.pages changes
            → Agrees self.new.pages.pages changes }
    {
        let _count = self.registry.registered(); // says that the entries are sound
        let Ok(swept) = self.sweep_entries() else {
            return Err(NoMemory);
        };
        self.drop_rows(swept.dropped.as_slice());
        Ok(swept)
    }

    /// What nobody holds goes, and each unfinished blob among it is told. After want of memory the
    /// parts are only to be dropped.
    #[tactic(auto, unfolding(crate::specs::Unheld::Drops))]
    pub fn drop_unheld(
        &mut self,
        handles: &mut HandleTable,
        answers: &mut Answers,
    ) -> Result<(), NoMemory>
        requires whole { IsWhole self.old }
        requires objects { HaveObjects self.old.shares
            (of_table ⟦<Boxed as DataHandle>⟧.seen handles.old) }
        ensures whole { OnOk result (IsWhole self.new) }
        ensures objects { OnOk result (HaveObjects self.new.shares
            (of_table ⟦<Boxed as DataHandle>⟧.seen handles.new)) }
        ensures swept { OnOk result (self.new.registry ≡ book_of self.old.registry.names
            (swept self.old.registry.names 0 self.old.registry.entries)) }
        ensures drops { OnOk result ((told : Option (List Change)) → Drops answers.old answers.new
            (scene self.old told (of_table ⟦<Boxed as DataHandle>⟧.seen handles.old))
            (scene self.new told (of_table ⟦<Boxed as DataHandle>⟧.seen handles.new))) }
        ensures behind { OnOk result ((told : Option (List Change))
            → DropsBehind answers.old answers.new
            (scene self.old told (of_table ⟦<Boxed as DataHandle>⟧.seen handles.old))
            (scene self.new told (of_table ⟦<Boxed as DataHandle>⟧.seen handles.new))) }
        ensures agrees { (changes : List Change) → Agrees self.old.pages.pages changes
            → Agrees self.new.pages.pages changes }
    {
        let _first = self.renderers.first_alive(); // says that the numbers are in order
        let Ok(swept) = self.drop_entries() else {
            return Err(NoMemory);
        };
        release(handles, swept.freed.as_slice());
        tell_dropped(answers, swept.dropped.as_slice())
    }
}
