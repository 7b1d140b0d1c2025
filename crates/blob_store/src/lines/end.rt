//! The line `end`.
ghost use Rattle.std.specs.Prelude.{◌≡◌, [], ◌∷◌, List, Option};

use crate::parts::Parts;
use answer_text::Answer;

impl Parts {
    ghost use Rattle.data_handles.specs.Table.{Table};
    ghost use Rattle.page_disk.specs.declared.change.Change.{Change};
    ghost use Rattle.session_script.specs.declared.event.Event.TheVariants as events;
    ghost use Rattle.blob_store.specs.Says.{scene, Says};
    ghost use Rattle.blob_store.specs.Whole.{IsWhole};

    /// The session ends: every renderer dies.
    #[tactic(auto, unfolding(crate::specs::Whole::IsWhole))]
    pub fn end(&mut self) -> Answer
        requires { IsWhole self.old }
        ensures whole { IsWhole self.new }
        ensures items { self.new.shares ≡ self.old.shares }
        ensures says { (told : Option (List Change)) (table : Table)
            → Says events.Finish (result ∷ [])
            (scene self.old told table) (scene self.new told table) }
    {
        while let Some(renderer) = self.renderers.first_alive() {
            self.depart(renderer);
        }
        Answer::Good
    }
}
