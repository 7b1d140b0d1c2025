//! The line `build`.
ghost use Rattle.std.specs.Prelude.{◌≡◌, ◌^◌, ◌<◌, [], ◌∷◌, List, Option, IfOk, OnOk};
ghost use Rattle.data_handles.specs.Boxes.{of_table};
ghost use Rattle.blob_store.specs.Unheld.{HaveObjects};

use crate::building::kind::kept_kind;
use crate::parts::Parts;
use answer_text::Answer;
use blob_words::{BlobName, NoMemory, Octets, RendererId};
use data_handles::{Boxed, DataHandle, HandleTable};
use session_script::Part;

impl Parts {
    ghost use Rattle.page_disk.specs.declared.change.Change.{Change};
    ghost use Rattle.session_script.specs.declared.event.Event.TheVariants as events;
    ghost use Rattle.blob_store.specs.Says.{scene, Says};
    ghost use Rattle.blob_store.specs.Whole.{with_line, IsWhole};

    /// A renderer builds a blob of parts. After want of memory the parts are only to be dropped.
    #[tactic(auto, unfolding(crate::specs::Whole::IsWhole))]
    pub fn build(
        &mut self,
        handles: &mut HandleTable,
        renderer: RendererId,
        name: BlobName,
        kind: &Octets,
        parts: &[Part],
    ) -> Result<Answer, NoMemory>
        requires whole { IsWhole self.old }
        requires objects { HaveObjects self.old.shares
            (of_table ⟦<Boxed as DataHandle>⟧.seen handles.old) }
        ensures whole { OnOk result (IsWhole (with_line self.new)) }
        ensures objects { OnOk result (HaveObjects self.new.shares
            (of_table ⟦<Boxed as DataHandle>⟧.seen handles.new)) }
        ensures says { IfOk result (λ answer. (told : Option (List Change))
            → Says (events.Build renderer name kind.now parts.now) (answer ∷ [])
            (scene self.old told (of_table ⟦<Boxed as DataHandle>⟧.seen handles.old))
            (scene self.new told (of_table ⟦<Boxed as DataHandle>⟧.seen handles.new))) }
    {
        if let Some(why) = self.build_refusal(handles, renderer, name, parts)? {
            return Ok(Answer::Refused(why));
        }
        let kept = kept_kind(self.alloc, kind.as_slice())?;
        let _count = self.registry.registered(); // says that there are as many names as entries
        let answer = self.admit(handles, renderer, name, kept.as_slice(), parts)?;
        Ok(answer)
    }
}
