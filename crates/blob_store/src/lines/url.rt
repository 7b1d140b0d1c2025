//! The line `url`.
ghost use Rattle.std.specs.Prelude.{◌≡◌, ◌^◌, ◌<◌, [], ◌∷◌, List, Option, IfOk, OnErr, OnOk};

use crate::parts::Parts;
use answer_text::{Answer, Refusal};
use blob_words::{BlobName, Counted, NoMemory, RendererId, UrlText};
use url_store::UrlFault;

impl Parts {
    ghost use Rattle.data_handles.specs.Table.{Table};
    ghost use Rattle.page_disk.specs.declared.change.Change.{Change};
    ghost use Rattle.session_script.specs.declared.event.Event.TheVariants as events;
    ghost use Rattle.blob_store.specs.Says.{scene, Says};
    ghost use Rattle.blob_store.specs.Whole.{with_line, IsWhole};

    /// A renderer makes a URL for a blob on which it has a handle.
    #[tactic(auto, unfolding(crate::specs::Whole::IsWhole))]
    pub fn url(
        &mut self,
        renderer: RendererId,
        name: BlobName,
        text: &UrlText,
    ) -> Result<Answer, NoMemory>
        requires whole { IsWhole self.old }
        requires few { self.old.lines < 2 ^ 63 }
        ensures whole { OnOk result (IsWhole (with_line self.new)) }
        ensures items { OnOk result (self.new.shares ≡ self.old.shares) }
        ensures says { IfOk result (λ answer. (told : Option (List Change)) (table : Table)
            → Says (events.Url renderer name text.now) (answer ∷ [])
            (scene self.old told table) (scene self.new told table)) }
        ensures err { OnErr result (self.new ≡ self.old) }
    {
        if let Some(why) = self.handle_refusal(renderer, name) {
            return Ok(Answer::Refused(why));
        }
        let origin = self.renderers.origin_of(renderer).unwrap();
        match self.urls.add(renderer, origin, name, text) {
            Ok(()) => {
                self.registry.hold(name);
                Ok(Answer::Good)
            }
            Err(UrlFault::Form) => Ok(Answer::Refused(Refusal::UrlForm)),
            Err(UrlFault::Taken) => Ok(Answer::Refused(Refusal::UrlTaken)),
            Err(UrlFault::Full) => Ok(Answer::Refused(Refusal::TooMany(Counted::Urls))),
            Err(UrlFault::NoMemory) => Err(NoMemory),
        }
    }
}
