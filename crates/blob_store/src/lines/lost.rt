//! The line `lost`.
ghost use Rattle.std.specs.Prelude.{◌≡◌, [], ◌∷◌, List, Option};

use crate::parts::Parts;
use answer_text::{Answer, Refusal};
use blob_words::JobNo;

impl Parts {
    ghost use Rattle.data_handles.specs.Table.{Table};
    ghost use Rattle.page_disk.specs.declared.change.Change.{Change};
    ghost use Rattle.session_script.specs.declared.event.Event.TheVariants as events;
    ghost use Rattle.blob_store.specs.Says.{scene, Says};
    ghost use Rattle.blob_store.specs.Whole.{IsWhole};

    /// The job in flight is lost: its pieces stay where they are, and no more are paged.
    #[tactic(auto, unfolding(crate::specs::Whole::IsWhole))]
    pub fn lost(&mut self, job: JobNo) -> Answer
        requires { IsWhole self.old }
        ensures whole { IsWhole self.new }
        ensures items { self.new.shares ≡ self.old.shares }
        ensures says { (told : Option (List Change)) (table : Table)
            → Says (events.Lost job) (result ∷ [])
            (scene self.old told table) (scene self.new told table) }
    {
        match self.pages.lose_job(job) {
            Ok(()) => Answer::LostJob(job),
            Err(_) => Answer::Refused(Refusal::NoJob(job)),
        }
    }
}
