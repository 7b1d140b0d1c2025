//! The blob of a line that isn't refused.
ghost use Rattle.std.specs.Prelude.{IfOk, OnOk};
ghost use Rattle.data_handles.specs.Boxes.{of_table};
ghost use Rattle.blob_store.specs.Admitting.{Admits, MayCome};
ghost use Rattle.blob_store.specs.Unheld.{HaveObjects};
ghost use Rattle.blob_store.specs.Whole.{with_line, IsWhole};

use super::claiming::claim_all;
use crate::parts::Parts;
use answer_text::Answer;
use blob_words::{BlobName, NoMemory, RendererId};
use data_handles::{Boxed, DataHandle, HandleTable};
use session_script::Part;

impl Parts {
    /// The blob of a line that isn't refused comes, broken or with a plan, and claims its data
    /// handles. After want of memory the parts are only to be dropped.
    #[tactic(auto, unfolding(crate::specs::Whole::IsWhole))]
    pub(crate) fn admit(
        &mut self,
        handles: &mut HandleTable,
        renderer: RendererId,
        name: BlobName,
        kind: &[u8],
        parts: &[Part],
    ) -> Result<Answer, NoMemory>
        requires whole { IsWhole self.old }
        requires objects { HaveObjects self.old.shares
            (of_table ⟦<Boxed as DataHandle>⟧.seen handles.old) }
        requires may { MayCome renderer name parts.now self.old
            (of_table ⟦<Boxed as DataHandle>⟧.seen handles.old) }
        ensures whole { OnOk result (IsWhole (with_line self.new)) }
        ensures objects { OnOk result (HaveObjects self.new.shares
            (of_table ⟦<Boxed as DataHandle>⟧.seen handles.new)) }
        ensures admits { IfOk result (λ answer. Admits renderer name kind.now parts.now self.old
            (of_table ⟦<Boxed as DataHandle>⟧.seen handles.old) answer self.new
            (of_table ⟦<Boxed as DataHandle>⟧.seen handles.new)) }
    {
        let _used = self.quota.used(); // says that it is within the limit
        match self.line_status(handles, renderer, name, parts)? {
            Some(why) => {
                self.add_broken(renderer, name, kind, why, parts)?;
                claim_all(handles, parts, true);
                Ok(Answer::Broken(name, why))
            }
            None => {
                let plan = self.plan_for(parts)?;
                self.add_planned(renderer, name, kind, plan, parts)?;
                claim_all(handles, parts, false);
                Ok(Answer::Planned(plan))
            }
        }
    }
}
