//! The line `cancel`.
ghost use Rattle.std.specs.Prelude.{◌≡◌, [], ◌∷◌, List, Option};

use crate::parts::Parts;
use answer_text::Answer;
use blob_words::{ReaderId, RendererId};

impl Parts {
    ghost use Rattle.data_handles.specs.Table.{Table};
    ghost use Rattle.page_disk.specs.declared.change.Change.{Change};
    ghost use Rattle.session_script.specs.declared.event.Event.TheVariants as events;
    ghost use Rattle.blob_store.specs.Says.{scene, Says};
    ghost use Rattle.blob_store.specs.Whole.{IsWhole};

    /// A renderer closes a reader of its own.
    #[tactic(auto, unfolding(crate::specs::Whole::IsWhole))]
    pub fn cancel(&mut self, renderer: RendererId, reader: ReaderId) -> Answer
        requires { IsWhole self.old }
        ensures whole { IsWhole self.new }
        ensures items { self.new.shares ≡ self.old.shares }
        ensures says { (told : Option (List Change)) (table : Table)
            → Says (events.Cancel renderer reader) (result ∷ [])
            (scene self.old told table) (scene self.new told table) }
    {
        if let Some(why) = self.reader_refusal(renderer, reader) {
            return Answer::Refused(why);
        }
        let open = self.readers.close(reader).unwrap();
        self.registry.let_go(open.blob);
        Answer::Good
    }
}
