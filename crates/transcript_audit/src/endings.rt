//! How unfinished blobs end: one after the other, in rising build number.
ghost use Rattle.std.specs.Prelude.{◌≡◌, ◌==◌, ◌++◌, [], false, slice_get, IfOk, OnOk};
ghost use Rattle.std.specs.List.{list_any, list_all};
ghost use Rattle.std.specs.Option.{option_map_or, option_to_list};
ghost use Rattle.blob_model.specs.Session.{Session, page_limit};
ghost use Rattle.blob_model.specs.History.{History, said_all};
ghost use Rattle.blob_model.specs.Parts.{sources};
ghost use Rattle.blob_model.specs.Builds.{builds};
ghost use Rattle.blob_model.specs.Standing.{is_broken};
ghost use Rattle.blob_model.specs.Jobs.{breaks_waiting};
ghost use Rattle.blob_model.specs.Waits.{has_sources, is_complete};
ghost use Rattle.blob_model.specs.Settle.{is_unwritten, is_deserted, ending, ending_answers, endings};
ghost use Rattle.history_notions.specs.Follows.{Follows};
ghost use Rattle.history_notions.specs.FollowsCourse.{FollowsCourse};
ghost use Rattle.history_notions.specs.Reach.{is_broken_in};
ghost use Rattle.transcript_audit.specs.Owed.{is_done_in};

use crate::giving::give_one;
use crate::stands::is_waiting;
use answer_text::{Answer, Answers};
use blob_words::{BlobName, NoMemory, RendererId, Status, Version};
use history_notions::builds::Build;
use history_notions::contents::Contents;
use history_notions::course::Course;
use history_notions::parts::sources;
use history_notions::standing::Endings;

/// Whether one of the blobs is broken.
fn is_some_broken(endings: &Endings, names: &[BlobName]) -> bool
    ensures { result ≡ list_any (is_broken_in endings.now) names.now }
{
    names.iter().any(|name| endings.is_broken(*name))
}

/// Whether all of them are done.
fn are_done(endings: &Endings, names: &[BlobName]) -> bool
    ensures { result ≡ list_all (is_done_in endings.now) names.now }
{
    names.iter().all(|name| endings.is_done(*name))
}

/// Whether a source of the blob is broken.
fn has_broken_source(contents: &Contents, build: &Build) -> Result<bool, NoMemory>
    ensures { IfOk result (λ some. (s : Session) (h : History) → Follows s h contents.now
        → some ≡ list_any (is_broken h) (sources build.now.parts)) }
{
    let names = sources(contents.alloc, build.parts.as_slice())?;
    Ok(is_some_broken(&contents.kept.endings, names.as_slice()))
}

/// Whether all sources of the blob are done.
fn has_sources(contents: &Contents, build: &Build) -> Result<bool, NoMemory>
    ensures { IfOk result (λ all. (s : Session) (h : History) → Follows s h contents.now
        → all ≡ has_sources h build.now) }
{
    let names = sources(contents.alloc, build.parts.as_slice())?;
    Ok(are_done(&contents.kept.endings, names.as_slice()))
}

/// Whether the blob is granted, misses no segment and every source is done.
fn is_complete(contents: &Contents, build: &Build) -> Result<bool, NoMemory>
    ensures { IfOk result (λ complete. (s : Session) (h : History) → Follows s h contents.now
        → complete ≡ is_complete s.limits h build.now) }
{
    let all = contents.has_all(build)?;
    let sources = has_sources(contents, build)?;
    Ok(contents.is_granted(build) && all && sources)
}

/// Whether the builder died before its bytes had all come or had their room.
fn is_deserted(contents: &Contents, build: &Build) -> Result<bool, NoMemory>
    ensures { IfOk result (λ deserted. (s : Session) (h : History) → Follows s h contents.now
        → deserted ≡ is_deserted s h build.now) }
{
    let is_alive = contents.kept.is_alive(RendererId(build.builder));
    let all = contents.has_all(build)?;
    Ok(!is_alive && (!all || !contents.is_granted(build)))
}

/// Whether the last line breaks the blobs that wait.
fn breaks_waiting(contents: &Contents) -> bool
    ensures { (s : Session) (h : History) → Follows s h contents.now
        → result ≡ breaks_waiting s.version h }
{
    match contents.version {
        Version::One => false,
        Version::Two => contents.kept.turned_off,
    }
}

/// Whether the write of the blob failed in this line.
fn is_unstored(contents: &Contents, build: &Build) -> bool
    ensures { result ≡ option_map_or (λ name. name == build.now.name)
        contents.now.kept.unstored false }
{
    match contents.kept.unstored {
        Some(name) => name == build.name,
        None => false,
    }
}

/// Whether the write of the blob failed in this line, or the line turned paging off while it
/// waited.
fn is_unwritten(contents: &Contents, build: &Build) -> bool
    ensures { (s : Session) (h : History) → Follows s h contents.now
        → result ≡ is_unwritten s h build.now }
{
    is_unstored(contents, build) || (breaks_waiting(contents) && is_waiting(contents, build))
}

/// How an unfinished blob ends, or none.
fn ending(contents: &Contents, build: &Build) -> Result<Option<Answer>, NoMemory>
    ensures { IfOk result (λ found. (s : Session) (h : History) → Follows s h contents.now
        → found ≡ ending s h build.now) }
{
    if is_unwritten(contents, build) {
        return Ok(Some(Answer::Broken(build.name, Status::FileWriteFailed)));
    }
    let deserted = is_deserted(contents, build)?;
    if deserted {
        return Ok(Some(Answer::Broken(build.name, Status::SourceDied)));
    }
    let broken = has_broken_source(contents, build)?;
    if broken {
        return Ok(Some(Answer::Broken(build.name, Status::ReferencedBlobBroken)));
    }
    let complete = is_complete(contents, build)?;
    if complete {
        return Ok(Some(Answer::Done(build.name)));
    }
    Ok(None)
}

/// How a blob ends, where it is unfinished.
fn ending_of(contents: &Contents, build: &Build) -> Result<Option<Answer>, NoMemory>
    ensures { IfOk result (λ found. (s : Session) (h : History) → Follows s h contents.now
        → option_to_list found ≡ ending_answers s h build.now) }
{
    if !contents.kept.is_unfinished(build.name) {
        return Ok(None);
    }
    ending(contents, build)
}

/// How the blob at a place ends.
fn ending_at(contents: &Contents, place: usize) -> Result<Option<Answer>, NoMemory>
    ensures { IfOk result (λ found. (s : Session) (h : History) → Follows s h contents.now
        → option_to_list found
        ≡ option_map_or (ending_answers s h) (slice_get (builds (page_limit s) h) place) []) }
{
    match contents.builds.as_slice().get(place) {
        Some(build) => ending_of(contents, build),
        None => Ok(None),
    }
}

/// Each blob is looked at once, after the answers for those before it.
pub fn endings(course: &mut Course, owed: &mut Answers) -> Result<(), NoMemory>
    ensures { OnOk result ((s : Session) (h : History) → FollowsCourse s h course.old
        → (owed.new ≡ owed.old ++ endings s h)
        × FollowsCourse s (said_all h (endings s h)) course.new) }
{
    let count = course.contents.builds.len();
    for place in 0..count {
        let found = ending_at(&course.contents, place)?;
        give_one(course, owed, found)?;
    }
    Ok(())
}
