//! Which blobs live.
ghost use Rattle.std.specs.Prelude.{◌≡◌, ◌<◌, ℕ, ◌==◌, ◌++◌, length, IfOk, IfSome, OnOk};
ghost use Rattle.std.specs.List.{list_any};
ghost use Rattle.std.specs.Prelude.{slice_get};
ghost use Rattle.blob_model.specs.Session.{Session, page_limit};
ghost use Rattle.blob_model.specs.History.{History};
ghost use Rattle.blob_model.specs.Parts.{sources};
ghost use Rattle.blob_model.specs.Live.{live};
ghost use Rattle.history_notions.specs.Follows.{Follows};
ghost use Rattle.history_notions.specs.Chosen.{items_at, places_after, wanted_after};

use crate::builds::Build;
use crate::contents::Contents;
use blob_words::{BlobName, ItemList, NoMemory};
use session_script::Part;

fn is_among(names: &[BlobName], name: BlobName) -> bool
    ensures { result ≡ list_any (λ each. each == name) names.now }
{
    names.iter().any(|each| *each == name)
}

/// Puts the blobs that the parts take bytes from behind the others.
fn put_sources(parts: &[Part], names: &mut ItemList<BlobName>) -> Result<(), NoMemory>
    ensures { OnOk result (names.new ≡ names.old ++ sources parts.now) }
{
    for part in parts {
        if let Part::BlobRange { b, .. } = part {
            names.push(*b)?;
        }
    }
    Ok(())
}

impl Contents {
    // Where the blob lives, its place is put behind those of later ones, and what it wants behind
    // what they want.
    fn look_at(
        &self,
        build: &Build,
        place: usize,
        places: &mut ItemList<usize>,
        wanted: &mut ItemList<BlobName>,
    ) -> Result<(), NoMemory>
        ensures { OnOk result ((s : Session) (h : History) → Follows s h self.now
            → (places.new ≡ places_after (page_limit s) h build.now place wanted.old places.old)
            × (wanted.new ≡ wanted_after (page_limit s) h build.now wanted.old)) }
    {
        if !self.is_rooted(build.name) && !is_among(wanted.as_slice(), build.name) {
            return Ok(());
        }
        places.push(place)?;
        if self.kept.is_unfinished(build.name) {
            put_sources(build.parts.as_slice(), wanted)?;
        }
        Ok(())
    }

    /// The places of the live blobs, in order of build.
    pub fn live(&self) -> Result<ItemList<usize>, NoMemory>
        ensures { IfOk result (λ places. (s : Session) (h : History) → Follows s h self.now
            → items_at self.now.builds places ≡ live (page_limit s) h) }
    {
        let builds = self.builds.as_slice();
        let mut places = ItemList::new(self.alloc);
        let mut wanted = ItemList::new(self.alloc);
        for back in 0..builds.len() {
            let place = builds.len() - 1 - back;
            self.look_at(&builds[place], place, &mut places, &mut wanted)?;
        }
        places.as_mut_slice().reverse();
        Ok(places)
    }
}
