//! The line `revoke`.
ghost use Rattle.std.specs.Prelude.{◌≡◌, [], ◌∷◌, List, Option};

use crate::parts::Parts;
use answer_text::Answer;
use blob_words::{RendererId, UrlText};

impl Parts {
    ghost use Rattle.data_handles.specs.Table.{Table};
    ghost use Rattle.page_disk.specs.declared.change.Change.{Change};
    ghost use Rattle.session_script.specs.declared.event.Event.TheVariants as events;
    ghost use Rattle.blob_store.specs.Says.{scene, Says};
    ghost use Rattle.blob_store.specs.Whole.{IsWhole};

    /// A renderer revokes a URL, where it is its own.
    #[tactic(auto, unfolding(crate::specs::Whole::IsWhole))]
    pub fn revoke(&mut self, renderer: RendererId, text: &UrlText) -> Answer
        requires { IsWhole self.old }
        ensures whole { IsWhole self.new }
        ensures items { self.new.shares ≡ self.old.shares }
        ensures says { (told : Option (List Change)) (table : Table)
            → Says (events.Revoke renderer text.now) (result ∷ [])
            (scene self.old told table) (scene self.new told table) }
    {
        if let Some(why) = self.renderer_refusal(renderer) {
            return Answer::Refused(why);
        }
        match self.urls.remove(renderer, text) {
            Some(name) => {
                self.registry.let_go(name);
                Answer::Revoked
            }
            None => Answer::Nothing,
        }
    }
}
