//! The line `slice`.
ghost use Rattle.std.specs.Prelude.{ℤ, ◌≡◌, ◌^◌, ◌<◌, [], ◌∷◌, List, Option, IfOk, OnOk};
ghost use Rattle.data_handles.specs.Boxes.{of_table};
ghost use Rattle.store_laws.specs.Deciding.{size_under, slice_line};
ghost use Rattle.blob_store.specs.Unheld.{HaveObjects};

use crate::building::kind::kept_kind;
use crate::parts::Parts;
use answer_text::Answer;
use blob_words::{BlobName, NoMemory, Octets, RendererId};
use data_handles::{Boxed, DataHandle, HandleTable};
use session_script::Part;
use slice_rule::slice_range;

impl Parts {
    ghost use Rattle.page_disk.specs.declared.change.Change.{Change};
    ghost use Rattle.session_script.specs.declared.event.Event.TheVariants as events;
    ghost use Rattle.blob_store.specs.Says.{scene, Says};
    ghost use Rattle.blob_store.specs.Whole.{with_line, IsWhole};

    // The size of the blob under a name.
    fn size_under(&self, name: BlobName) -> u64
        ensures { result ≡ size_under self.now.registry name }
    {
        self.registry.size_of(name).unwrap_or(0)
    }

    // The one part of a slice.
    fn slice_part(&self, source: BlobName, start: Option<i64>, end: Option<i64>) -> Part
        requires { size_under self.now.registry source < 2 ^ 63 }
        ensures { result ∷ [] ≡ slice_line self.now.registry source start end }
    {
        let (off, len) = slice_range(self.size_under(source), start, end);
        Part::BlobRange {
            b: source,
            off,
            len,
        }
    }

    /// A renderer builds a blob as a slice of another one. After want of memory the parts are only
    /// to be dropped.
    #[tactic(auto, unfolding(crate::specs::Whole::IsWhole))]
    pub fn slice(
        &mut self,
        handles: &mut HandleTable,
        renderer: RendererId,
        name: BlobName,
        source: BlobName,
        start: Option<i64>,
        end: Option<i64>,
        kind: &Octets,
    ) -> Result<Answer, NoMemory>
        requires whole { IsWhole self.old }
        requires objects { HaveObjects self.old.shares
            (of_table ⟦<Boxed as DataHandle>⟧.seen handles.old) }
        ensures whole { OnOk result (IsWhole (with_line self.new)) }
        ensures objects { OnOk result (HaveObjects self.new.shares
            (of_table ⟦<Boxed as DataHandle>⟧.seen handles.new)) }
        ensures says { IfOk result (λ answer. (told : Option (List Change))
            → Says (events.Slice renderer name source start end kind.now) (answer ∷ [])
            (scene self.old told (of_table ⟦<Boxed as DataHandle>⟧.seen handles.old))
            (scene self.new told (of_table ⟦<Boxed as DataHandle>⟧.seen handles.new))) }
    {
        let parts = [self.slice_part(source, start, end)];
        if let Some(why) = self.slice_refusal(handles, renderer, name, source, &parts)? {
            return Ok(Answer::Refused(why));
        }
        let kept = kept_kind(self.alloc, kind.as_slice())?;
        let _count = self.registry.registered(); // says that there are as many names as entries
        let answer = self.admit(handles, renderer, name, kept.as_slice(), &parts)?;
        Ok(answer)
    }
}
