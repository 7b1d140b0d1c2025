//! Those that wait are granted in order, while the head fits in memory.
ghost use Rattle.std.specs.Prelude.{◌≡◌, ◌+◌, ◌++◌, map, nat_le, slice_get, IfOk, OnOk};
ghost use Rattle.std.specs.Option.{option_to_list};
ghost use Rattle.blob_model.specs.Session.{Session, page_limit};
ghost use Rattle.blob_model.specs.History.{History, said_all};
ghost use Rattle.blob_model.specs.Tally.{memory};
ghost use Rattle.blob_model.specs.Waits.{waits};
ghost use Rattle.blob_model.specs.Settle.{grants};
ghost use Rattle.history_notions.specs.Follows.{Follows};
ghost use Rattle.history_notions.specs.FollowsCourse.{FollowsCourse};
ghost use Rattle.history_notions.specs.Chosen.{items_at};
ghost use Rattle.transcript_audit.specs.Owed.{head};

use crate::giving::grant;
use answer_text::Answers;
use blob_words::{BlobName, ItemList, NoMemory};
use history_notions::builds::Build;
use history_notions::contents::Contents;
use history_notions::course::Course;
use history_notions::parts::own_bytes;
use std::alloc::Global;

/// Puts the name and the own bytes of the blob at a place behind others.
fn put_head(
    builds: &[Build],
    place: usize,
    heads: &mut ItemList<(BlobName, u128)>,
) -> Result<(), NoMemory>
    ensures { OnOk result (heads.new
        ≡ heads.old ++ map head (option_to_list (slice_get builds.now place))) }
{
    match builds.get(place) {
        Some(build) => heads.push((build.name, own_bytes(build.parts.as_slice()))),
        None => Ok(()),
    }
}

/// The names and own bytes of the blobs at these places.
fn heads_at(
    alloc: Global,
    builds: &[Build],
    places: &[usize],
) -> Result<ItemList<(BlobName, u128)>, NoMemory>
    ensures { IfOk result (λ heads. heads ≡ map head (items_at builds.now places.now)) }
{
    let mut heads = ItemList::new(alloc);
    for place in places {
        put_head(builds, *place, &mut heads)?;
    }
    Ok(heads)
}

/// The names and own bytes of the blobs that wait.
pub fn heads(contents: &Contents) -> Result<ItemList<(BlobName, u128)>, NoMemory>
    ensures { IfOk result (λ heads. (s : Session) (h : History) → Follows s h contents.now
        → heads ≡ map head (waits (page_limit s) h)) }
{
    let places = contents.waits()?;
    let builds = contents.builds.as_slice();
    let heads = heads_at(contents.alloc, builds, places.as_slice())?;
    Ok(heads)
}

/// Whether memory has room for so many bytes more.
fn has_room(contents: &Contents, own: u128) -> Result<bool, NoMemory>
    ensures { IfOk result (λ fits. (s : Session) (h : History) → Follows s h contents.now
        → fits ≡ nat_le (memory (page_limit s) h + own) s.limits.memory) }
{
    let list = contents.reached()?;
    let memory = contents.memory(list.as_slice())?;
    Ok(memory.saturating_add(own) <= u128::from(contents.limits.memory))
}

/// Those that wait are granted in order, while the head fits in memory.
pub fn grants(course: &mut Course, owed: &mut Answers) -> Result<(), NoMemory>
    ensures { OnOk result ((s : Session) (h : History) → FollowsCourse s h course.old
        → (owed.new ≡ owed.old ++ grants s h)
        × FollowsCourse s (said_all h (grants s h)) course.new) }
{
    let waiting = heads(&course.contents)?;
    for (name, own) in waiting.as_slice() {
        let fits = has_room(&course.contents, *own)?;
        if !fits {
            return Ok(());
        }
        grant(course, owed, *name)?;
    }
    Ok(())
}
