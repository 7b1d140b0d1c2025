//! The line `spawn`.
ghost use Rattle.std.specs.Prelude.{OnOk, ◌≡◌, [], ◌∷◌, List, Option, IfOk, OnErr};

use crate::parts::Parts;
use answer_text::{Answer, Refusal};
use blob_words::{Counted, NoMemory, Origin, RendererId};
use renderer_table::SpawnFault;

impl Parts {
    ghost use Rattle.data_handles.specs.Table.{Table};
    ghost use Rattle.page_disk.specs.declared.change.Change.{Change};
    ghost use Rattle.session_script.specs.declared.event.Event.TheVariants as events;
    ghost use Rattle.blob_store.specs.Says.{scene, Says};
    ghost use Rattle.blob_store.specs.Whole.{IsWhole};

    /// A renderer of an origin begins.
    #[tactic(auto, unfolding(crate::specs::Whole::IsWhole))]
    pub fn spawn(&mut self, renderer: RendererId, origin: &Origin) -> Result<Answer, NoMemory>
        requires { IsWhole self.old }
        ensures whole { IsWhole self.new }
        ensures items { OnOk result (self.new.shares ≡ self.old.shares) }
        ensures says { IfOk result (λ answer. (told : Option (List Change)) (table : Table)
            → Says (events.Spawn renderer origin.now) (answer ∷ [])
            (scene self.old told table) (scene self.new told table)) }
        ensures err { OnErr result (self.new ≡ self.old) }
    {
        match self.renderers.spawn(renderer, origin) {
            Ok(()) => Ok(Answer::Good),
            Err(SpawnFault::Used) => Ok(Answer::Refused(Refusal::RendererUsed(renderer))),
            Err(SpawnFault::Full) => Ok(Answer::Refused(Refusal::TooMany(Counted::Renderers))),
            Err(SpawnFault::NoMemory) => Err(NoMemory),
        }
    }
}
