//! Why a renderer can do nothing, or can't use a thing that isn't its own.
ghost use Rattle.std.specs.Prelude.{◌≡◌, map};
ghost use Rattle.store_laws.specs.TableLaws.{reader_refusal, renderer_refusal};
ghost use Rattle.blob_store.specs.Seen.{reader_of};

use crate::parts::Parts;
use answer_text::Refusal;
use blob_words::{ReaderId, RendererId};

impl Parts {
    // Why a renderer can do nothing.
    pub(crate) fn renderer_refusal(&self, renderer: RendererId) -> Option<Refusal>
        ensures { result ≡ renderer_refusal renderer self.now.renderers }
    {
        if !self.is_alive(renderer) {
            return Some(Refusal::NoRenderer(renderer));
        }
        None
    }

    // Why a renderer can't close a reader.
    pub(crate) fn reader_refusal(&self, renderer: RendererId, reader: ReaderId) -> Option<Refusal>
        ensures { result ≡ reader_refusal renderer reader self.now.renderers
            (map reader_of self.now.readers) }
    {
        if !self.is_alive(renderer) {
            return Some(Refusal::NoRenderer(renderer));
        }
        let Some(open) = self.readers.find(reader) else {
            return Some(Refusal::NoReader(reader));
        };
        if open.owner.0 != renderer.0 {
            return Some(Refusal::NoReader(reader));
        }
        None
    }
}
