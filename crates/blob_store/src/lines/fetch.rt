//! The line `fetch`.
ghost use Rattle.std.specs.Prelude.{◌≡◌, ◌^◌, ◌<◌, [], ◌∷◌, List, Option, IfOk, OnErr, OnOk};

use crate::parts::Parts;
use answer_text::{Answer, Refusal};
use blob_words::{NoMemory, ReaderId, RendererId, UrlText};

impl Parts {
    ghost use Rattle.data_handles.specs.Table.{Table};
    ghost use Rattle.page_disk.specs.declared.change.Change.{Change};
    ghost use Rattle.session_script.specs.declared.event.Event.TheVariants as events;
    ghost use Rattle.blob_store.specs.Says.{scene, Says};
    ghost use Rattle.blob_store.specs.Whole.{with_line, IsWhole};

    /// A renderer opens a reader on the blob that a URL of its origin leads to.
    #[tactic(auto, unfolding(crate::specs::Whole::IsWhole))]
    pub fn fetch(
        &mut self,
        renderer: RendererId,
        reader: ReaderId,
        text: &UrlText,
        off: u64,
        len: Option<u64>,
    ) -> Result<Answer, NoMemory>
        requires whole { IsWhole self.old }
        requires few { self.old.lines < 2 ^ 63 }
        ensures whole { OnOk result (IsWhole (with_line self.new)) }
        ensures items { OnOk result (self.new.shares ≡ self.old.shares) }
        ensures says { IfOk result (λ answer. (told : Option (List Change)) (table : Table)
            → Says (events.Fetch renderer reader text.now off len) (answer ∷ [])
            (scene self.old told table) (scene self.new told table)) }
        ensures err { OnErr result (self.new ≡ self.old) }
    {
        let Some(origin) = self.renderers.origin_of(renderer) else {
            return Ok(Answer::Refused(Refusal::NoRenderer(renderer)));
        };
        match self.urls.resolve(origin, text) {
            Ok(name) => self.open_range(renderer, reader, name, off, len),
            Err(_) => Ok(Answer::Refused(Refusal::NoUrl)),
        }
    }
}
