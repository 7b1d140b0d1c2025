//! The line `gone`.
ghost use Rattle.std.specs.Prelude.{◌≡◌, [], ◌∷◌, List, Option};

use crate::parts::Parts;
use answer_text::{Answer, Refusal};
use blob_words::FileName;

impl Parts {
    ghost use Rattle.data_handles.specs.Table.{Table};
    ghost use Rattle.page_disk.specs.declared.change.Change.{Change};
    ghost use Rattle.session_script.specs.declared.event.Event.TheVariants as events;
    ghost use Rattle.blob_store.specs.Says.{scene, Says};
    ghost use Rattle.blob_store.specs.Whole.{IsWhole};

    /// A file is gone.
    #[tactic(auto, unfolding(crate::specs::Whole::IsWhole))]
    pub fn gone(&mut self, name: &FileName) -> Answer
        requires { IsWhole self.old }
        ensures whole { IsWhole self.new }
        ensures items { self.new.shares ≡ self.old.shares }
        ensures says { (told : Option (List Change)) (table : Table)
            → Says (events.Gone name.now) (result ∷ [])
            (scene self.old told table) (scene self.new told table) }
    {
        match self.files.forget(name) {
            Ok(()) => Answer::Good,
            Err(_) => Answer::Refused(Refusal::NoFile),
        }
    }
}
