//! The line `tally`.
ghost use Rattle.std.specs.Prelude.{◌≡◌, ◌≤◌, [], ◌∷◌, List, Option};

use crate::parts::Parts;
use answer_text::Answer;
use blob_words::bounds::{MOST_READERS, MOST_URLS};

// A number of things of which there are few.
fn few(count: usize, most: u32) -> u32
    requires { count ≤ most }
    ensures { result ≡ count }
{
    count as u32
}

impl Parts {
    ghost use Rattle.data_handles.specs.Table.{Table};
    ghost use Rattle.page_disk.specs.declared.change.Change.{Change};
    ghost use Rattle.session_script.specs.declared.event.Event.TheVariants as events;
    ghost use Rattle.blob_store.specs.Says.{scene, Says};
    ghost use Rattle.blob_store.specs.Whole.{IsWhole};

    /// How many blobs, URLs, open readers and waiting blobs there are. It walks over the blobs.
    #[tactic(auto, unfolding(crate::specs::Whole::IsWhole))]
    pub fn count(&self) -> Answer
        requires { IsWhole self.now }
        ensures { (told : Option (List Change)) (table : Table)
            → Says events.Count (result ∷ []) (scene self.now told table)
            (scene self.now told table) }
    {
        let most = self.registry.registered();
        let blobs = few(self.registry.len(), most);
        let urls = few(self.urls.count(), MOST_URLS as u32);
        let readers = few(self.readers.count(), MOST_READERS as u32);
        let waiting = few(self.quota.waiting(), most);
        Answer::Held {
            blobs,
            urls,
            readers,
            waiting,
            paging: self.pages.paging(),
        }
    }
}
