//! The line `pass`.
ghost use Rattle.std.specs.Prelude.{◌≡◌, ◌^◌, ◌<◌, [], ◌∷◌, List, Option, IfOk, OnErr, OnOk};

use crate::parts::Parts;
use answer_text::{Answer, Refusal};
use blob_words::{BlobName, NoMemory, RendererId};
use renderer_table::PassFault;

impl Parts {
    ghost use Rattle.data_handles.specs.Table.{Table};
    ghost use Rattle.page_disk.specs.declared.change.Change.{Change};
    ghost use Rattle.session_script.specs.declared.event.Event.TheVariants as events;
    ghost use Rattle.blob_store.specs.Says.{scene, Says};
    ghost use Rattle.blob_store.specs.Whole.{with_line, IsWhole};

    /// A renderer gives another one a handle on a blob.
    #[tactic(auto, unfolding(crate::specs::Whole::IsWhole))]
    pub fn pass(
        &mut self,
        renderer: RendererId,
        to: RendererId,
        name: BlobName,
    ) -> Result<Answer, NoMemory>
        requires whole { IsWhole self.old }
        requires few { self.old.lines < 2 ^ 63 }
        ensures whole { OnOk result (IsWhole (with_line self.new)) }
        ensures items { OnOk result (self.new.shares ≡ self.old.shares) }
        ensures says { IfOk result (λ answer. (told : Option (List Change)) (table : Table)
            → Says (events.Pass renderer to name) (answer ∷ [])
            (scene self.old told table) (scene self.new told table)) }
        ensures err { OnErr result (self.new ≡ self.old) }
    {
        match self.renderers.pass(renderer, to, name) {
            Ok(()) => {
                self.registry.hold(name);
                Ok(Answer::Good)
            }
            Err(PassFault::NoRenderer(other)) => Ok(Answer::Refused(Refusal::NoRenderer(other))),
            Err(PassFault::NoHandle) => Ok(Answer::Refused(Refusal::NoHandle(renderer, name))),
            Err(PassFault::NoMemory) => Err(NoMemory),
        }
    }
}
