//! The line `drop`.
ghost use Rattle.std.specs.Prelude.{◌≡◌, [], ◌∷◌, List, Option};

use crate::parts::Parts;
use answer_text::{Answer, Refusal};
use blob_words::{BlobName, RendererId};
use renderer_table::DropFault;

impl Parts {
    ghost use Rattle.data_handles.specs.Table.{Table};
    ghost use Rattle.page_disk.specs.declared.change.Change.{Change};
    ghost use Rattle.session_script.specs.declared.event.Event.TheVariants as events;
    ghost use Rattle.blob_store.specs.Says.{scene, Says};
    ghost use Rattle.blob_store.specs.Whole.{IsWhole};

    /// A renderer lets a handle on a blob go.
    #[tactic(auto, unfolding(crate::specs::Whole::IsWhole))]
    pub fn drop_handle(&mut self, renderer: RendererId, name: BlobName) -> Answer
        requires { IsWhole self.old }
        ensures whole { IsWhole self.new }
        ensures items { self.new.shares ≡ self.old.shares }
        ensures says { (told : Option (List Change)) (table : Table)
            → Says (events.Drop renderer name) (result ∷ [])
            (scene self.old told table) (scene self.new told table) }
    {
        match self.renderers.drop_one(renderer, name) {
            Err(DropFault::NoRenderer(other)) => Answer::Refused(Refusal::NoRenderer(other)),
            Err(DropFault::NoHandle) => Answer::Refused(Refusal::NoHandle(renderer, name)),
            Ok(()) => {
                self.registry.let_go(name);
                Answer::Good
            }
        }
    }
}
