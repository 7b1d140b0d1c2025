//! The unfinished blobs that aren't live are dropped.
ghost use Rattle.std.specs.Prelude.{◌≡◌, ◌==◌, map, filter, slice_get, false, IfOk};
ghost use Rattle.std.specs.List.{list_any};
ghost use Rattle.std.specs.Option.{option_map_or};
ghost use Rattle.blob_model.specs.Session.{Session};
ghost use Rattle.blob_model.specs.History.{History};
ghost use Rattle.blob_model.specs.Order.{named};
ghost use Rattle.blob_model.specs.Settle.{drops};
ghost use Rattle.history_notions.specs.Follows.{Follows};
ghost use Rattle.history_notions.specs.Chosen.{items_at};
ghost use Rattle.transcript_audit.specs.Owed.{dropped, is_lost, is_unended};

use answer_text::{Answer, Answers};
use blob_words::{BlobName, ItemList, NoMemory};
use history_notions::builds::Build;
use history_notions::contents::Contents;
use history_notions::standing::Endings;
use std::alloc::Global;

/// Whether the blob at the place has the name.
fn has_name(builds: &[Build], name: BlobName, place: usize) -> bool
    ensures { result
        ≡ option_map_or (λ build. build.name == name) (slice_get builds.now place) false }
{
    match builds.get(place) {
        Some(build) => build.name == name,
        None => false,
    }
}

/// Whether one of the places has a blob of the name.
fn has_named(builds: &[Build], places: &[usize], name: BlobName) -> bool
    ensures { result ≡ list_any (λ place. option_map_or (λ build. build.name == name)
        (slice_get builds.now place) false) places.now }
{
    places.iter().any(|place| has_name(builds, name, *place))
}

/// Whether a blob at one of the places has the name.
fn is_named_at(builds: &[Build], places: &[usize], name: BlobName) -> bool
    ensures { result ≡ named name (items_at builds.now places.now) }
{
    has_named(builds, places, name)
}

/// Whether the blob is unfinished, and none of those at the places.
fn is_lost(endings: &Endings, builds: &[Build], places: &[usize], build: &Build) -> bool
    ensures { result ≡ is_lost endings.now (items_at builds.now places.now) build.now }
{
    endings.is_unfinished(build.name) && !is_named_at(builds, places, build.name)
}

/// The answers for the blobs that are lost, in order of build.
fn lost(
    alloc: Global,
    endings: &Endings,
    builds: &[Build],
    places: &[usize],
) -> Result<Answers, NoMemory>
    ensures { IfOk result (λ found. found ≡ map dropped
        (filter (is_lost endings.now (items_at builds.now places.now)) builds.now)) }
{
    let mut found = ItemList::new(alloc);
    for build in builds {
        if is_lost(endings, builds, places, build) {
            found.push(Answer::Dropped(build.name))?;
        }
    }
    Ok(found)
}

/// Whether one of the blobs is unfinished.
fn has_unfinished(endings: &Endings, builds: &[Build]) -> bool
    ensures { result ≡ list_any (is_unended endings.now) builds.now }
{
    builds.iter().any(|build| endings.is_unfinished(build.name))
}

/// The answers for the unfinished blobs that aren't live, the greatest build number first.
fn lost_last_first(contents: &Contents) -> Result<Answers, NoMemory>
    ensures { IfOk result (λ found. (s : Session) (h : History) → Follows s h contents.now
        → found ≡ drops s h) }
{
    let places = contents.live()?;
    let builds = contents.builds.as_slice();
    let endings = &contents.kept.endings;
    let mut found = lost(contents.alloc, endings, builds, places.as_slice())?;
    found.as_mut_slice().reverse();
    Ok(found)
}

/// The unfinished blobs that aren't live are dropped, the greatest build number first.
pub fn drops(contents: &Contents) -> Result<Answers, NoMemory>
    ensures { IfOk result (λ found. (s : Session) (h : History) → Follows s h contents.now
        → found ≡ drops s h) }
{
    if !has_unfinished(&contents.kept.endings, contents.builds.as_slice()) {
        return Ok(ItemList::new(contents.alloc));
    }
    lost_last_first(contents)
}
