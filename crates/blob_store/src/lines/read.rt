//! The line `read`.
ghost use Rattle.std.specs.Prelude.{◌≡◌, ◌^◌, ◌<◌, [], ◌∷◌, List, Option, IfOk, OnErr, OnOk};

use crate::parts::Parts;
use answer_text::Answer;
use blob_words::{BlobName, NoMemory, ReaderId, RendererId};

impl Parts {
    ghost use Rattle.data_handles.specs.Table.{Table};
    ghost use Rattle.page_disk.specs.declared.change.Change.{Change};
    ghost use Rattle.session_script.specs.declared.event.Event.TheVariants as events;
    ghost use Rattle.blob_store.specs.Says.{scene, Says};
    ghost use Rattle.blob_store.specs.Whole.{with_line, IsWhole};

    /// A renderer opens a reader on a blob on which it has a handle.
    #[tactic(auto, unfolding(crate::specs::Whole::IsWhole))]
    pub fn read(
        &mut self,
        renderer: RendererId,
        reader: ReaderId,
        name: BlobName,
        off: u64,
        len: Option<u64>,
    ) -> Result<Answer, NoMemory>
        requires whole { IsWhole self.old }
        requires few { self.old.lines < 2 ^ 63 }
        ensures whole { OnOk result (IsWhole (with_line self.new)) }
        ensures items { OnOk result (self.new.shares ≡ self.old.shares) }
        ensures says { IfOk result (λ answer. (told : Option (List Change)) (table : Table)
            → Says (events.Read renderer reader name off len) (answer ∷ [])
            (scene self.old told table) (scene self.new told table)) }
        ensures err { OnErr result (self.new ≡ self.old) }
    {
        if let Some(why) = self.handle_refusal(renderer, name) {
            return Ok(Answer::Refused(why));
        }
        self.open_range(renderer, reader, name, off, len)
    }
}
