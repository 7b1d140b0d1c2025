//! Who waits for room in memory, and which blobs are complete.
ghost use Rattle.std.specs.Prelude.{◌≡◌, ℕ, filter, IfOk};
ghost use Rattle.blob_model.specs.Session.{Session, page_limit};
ghost use Rattle.blob_model.specs.History.{History};
ghost use Rattle.blob_model.specs.Waits.{is_shared, waits};
ghost use Rattle.history_notions.specs.Follows.{Follows};
ghost use Rattle.history_notions.specs.Chosen.{items_at};
ghost use Rattle.history_notions.specs.Missing.{is_waiting_in};

use crate::builds::Build;
use crate::contents::Contents;
use crate::standing::{Endings, Granted};
use blob_words::{ItemList, NoMemory, Plan};
use std::alloc::Global;

/// Whether the plan is shared.
fn is_shared(plan: Option<Plan>) -> bool
    ensures { result ≡ is_shared plan }
{
    matches!(plan, Some(Plan::Shared(_)))
}

/// Whether the blob is unfinished, its plan is shared and it wasn't granted.
pub fn is_waiting(endings: &Endings, granted: &Granted, build: &Build) -> bool
    ensures { result ≡ is_waiting_in endings.now granted.now build.now }
{
    is_shared(build.plan) && endings.is_unfinished(build.name) && !granted.has(build.name)
}

fn waiting_places(
    alloc: Global,
    endings: &Endings,
    granted: &Granted,
    builds: &[Build],
) -> Result<ItemList<usize>, NoMemory>
    ensures { IfOk result (λ places. items_at builds.now places
        ≡ filter (is_waiting_in endings.now granted.now) builds.now) }
{
    let mut places = ItemList::new(alloc);
    for place in 0..builds.len() {
        if is_waiting(endings, granted, &builds[place]) {
            places.push(place)?;
        }
    }
    Ok(places)
}

impl Contents {
    /// The places of the blobs that wait, in order of build.
    pub fn waits(&self) -> Result<ItemList<usize>, NoMemory>
        ensures { IfOk result (λ places. (s : Session) (h : History) → Follows s h self.now
            → items_at self.now.builds places ≡ waits (page_limit s) h) }
    {
        let endings = &self.kept.endings;
        let granted = &self.kept.granted;
        let builds = self.builds.as_slice();
        let places = waiting_places(self.alloc, endings, granted, builds)?;
        Ok(places)
    }
}
