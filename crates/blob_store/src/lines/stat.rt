//! The line `stat`.
ghost use Rattle.std.specs.Prelude.{◌≡◌, [], ◌∷◌, List, None, Option, Some, IfOk, is_some};
ghost use Rattle.blob_entries.specs.Book.{entry_of};
ghost use Rattle.renderer_table.specs.Table.{living_of};
ghost use Rattle.store_laws.specs.LineLaws.{handle_refusal};

use crate::parts::Parts;
use answer_text::{Answer, Refusal};
use blob_entries::Entry;
use blob_words::{BlobName, NoMemory, Octets, RendererId};

impl Parts {
    ghost use Rattle.data_handles.specs.Table.{Table};
    ghost use Rattle.page_disk.specs.declared.change.Change.{Change};
    ghost use Rattle.session_script.specs.declared.event.Event.TheVariants as events;
    ghost use Rattle.blob_store.specs.Says.{scene, Says};
    ghost use Rattle.blob_store.specs.Whole.{IsWhole};

    pub(crate) fn is_alive(&self, renderer: RendererId) -> bool
        ensures { result ≡ is_some (living_of renderer.0 self.now.renderers) }
    {
        self.renderers.origin_of(renderer).is_some()
    }

    // Why a renderer can't use its handle on a blob.
    pub(crate) fn handle_refusal(&self, renderer: RendererId, name: BlobName) -> Option<Refusal>
        ensures { result ≡ handle_refusal renderer name self.now.renderers }
    {
        if !self.is_alive(renderer) {
            return Some(Refusal::NoRenderer(renderer));
        }
        if self.renderers.count_of(renderer, name) == 0 {
            return Some(Refusal::NoHandle(renderer, name));
        }
        None
    }

    // What stands under the name of a blob on which a renderer has a handle.
    #[tactic(auto, unfolding(crate::specs::Whole::IsWhole))]
    fn entry_held(&self, renderer: RendererId, name: BlobName) -> &Entry
        requires whole { IsWhole self.now }
        requires held { handle_refusal renderer name self.now.renderers ≡ None }
        ensures { Some result.now ≡ entry_of self.now.registry name }
    {
        let number = self.registry.number_of(name).unwrap();
        self.registry.entry_under(number).unwrap()
    }

    /// A renderer asks how a blob stands.
    #[tactic(auto, unfolding(crate::specs::Whole::IsWhole))]
    pub fn stat(&self, renderer: RendererId, name: BlobName) -> Result<Answer, NoMemory>
        requires { IsWhole self.now }
        ensures { IfOk result (λ answer. (told : Option (List Change)) (table : Table)
            → Says (events.Stat renderer name) (answer ∷ [])
            (scene self.now told table) (scene self.now told table)) }
    {
        if let Some(why) = self.handle_refusal(renderer, name) {
            return Ok(Answer::Refused(why));
        }
        let entry = self.entry_held(renderer, name);
        let Ok(kind) = Octets::from_slice(self.alloc, entry.kind.as_slice()) else {
            return Err(NoMemory);
        };
        Ok(Answer::Told {
            b: name,
            size: entry.size,
            kind,
            status: entry.status,
        })
    }
}
