//! How blobs stand, as `stat` and the readers tell it.
ghost use Rattle.std.specs.Prelude.{◌≡◌, ◌≤◌, length, slice_get, IfOk};
ghost use Rattle.std.specs.Option.{option_to_list};
ghost use Rattle.blob_model.specs.Session.{Session, page_limit};
ghost use Rattle.blob_model.specs.History.{History};
ghost use Rattle.blob_model.specs.Builds.{builds};
ghost use Rattle.blob_model.specs.Standing.{ended};
ghost use Rattle.blob_model.specs.Entries.{owns_entry};
ghost use Rattle.blob_model.specs.Waits.{is_waiting};
ghost use Rattle.blob_model.specs.Own.{pending_status, status_of, kind_in, blob_at};
ghost use Rattle.history_notions.specs.Follows.{Follows};
ghost use Rattle.history_notions.specs.Chosen.{items_at};

use blob_words::{BlobName, NoMemory, RendererId, Status, UrlText};
use history_notions::builds::Build;
use history_notions::contents::Contents;
use history_notions::{entries, waits};

/// The status with which the blob ended, or nothing while it is unfinished.
pub fn ended(contents: &Contents, name: BlobName) -> Option<Status>
    ensures { (s : Session) (h : History) → Follows s h contents.now → result ≡ ended h name }
{
    contents.kept.endings.ended(name)
}

/// Whether the blob waits for room in memory.
pub fn is_waiting(contents: &Contents, build: &Build) -> bool
    ensures { (s : Session) (h : History) → Follows s h contents.now
        → result ≡ is_waiting h build.now }
{
    waits::is_waiting(&contents.kept.endings, &contents.kept.granted, build)
}

/// What an unfinished blob still waits for.
fn pending_status(contents: &Contents, build: &Build) -> Result<Status, NoMemory>
    ensures { IfOk result (λ status. (s : Session) (h : History) → Follows s h contents.now
        → status ≡ pending_status s h build.now) }
{
    if is_waiting(contents, build) {
        return Ok(Status::PendingQuota);
    }
    let all = contents.has_all(build)?;
    if all {
        return Ok(Status::PendingReferencedBlobs);
    }
    Ok(Status::PendingTransport)
}

/// What an unfinished blob of this name still waits for.
fn pending_in(contents: &Contents, name: BlobName) -> Result<Status, NoMemory>
    ensures { IfOk result (λ status. (s : Session) (h : History) → Follows s h contents.now
        → ended h name ≡ None → status ≡ status_of s h name) }
{
    match contents.build(name) {
        Some(build) => pending_status(contents, build),
        None => Ok(Status::PendingTransport),
    }
}

/// How the blob ended, or what it waits for.
pub fn status_of(contents: &Contents, name: BlobName) -> Result<Status, NoMemory>
    ensures { IfOk result (λ status. (s : Session) (h : History) → Follows s h contents.now
        → status ≡ status_of s h name) }
{
    match ended(contents, name) {
        Some(status) => Ok(status),
        None => pending_in(contents, name),
    }
}

/// The content type of the blob of this name.
pub fn kind_in(contents: &Contents, name: BlobName) -> &[u8]
    ensures { (s : Session) (h : History) → Follows s h contents.now
        → result.now ≡ kind_in (builds (page_limit s) h) name }
{
    match contents.build(name) {
        Some(build) => build.kind.as_slice(),
        None => &[],
    }
}

/// The blob of the URL entry that a text resolves to.
pub fn blob_at(contents: &Contents, r: RendererId, text: &UrlText) -> BlobName
    ensures { (s : Session) (h : History) → Follows s h contents.now
        → result ≡ blob_at h r.0 text.now }
{
    match contents.kept.resolved(r, text) {
        Some(entry) => entry.blob,
        None => BlobName::from_number(0),
    }
}

/// Whether the renderer owns an entry with this text.
pub fn owns_entry(contents: &Contents, r: RendererId, text: &UrlText) -> bool
    ensures { (s : Session) (h : History) → Follows s h contents.now
        → result ≡ owns_entry h r.0 text.now }
{
    entries::owns_entry(&contents.kept.entries, r.0, text.as_slice())
}

/// How many blobs are at the place: one or none.
fn count_one(builds: &[Build], place: usize) -> usize
    ensures count { result ≡ length (option_to_list (slice_get builds.now place)) }
    ensures small { result ≤ 1 }
{
    match builds.get(place) {
        Some(_) => 1,
        None => 0,
    }
}

/// How many of the places have a blob.
pub fn count_at(builds: &[Build], places: &[usize]) -> usize
    ensures { result ≡ length (items_at builds.now places.now) }
{
    let mut count = 0;
    for place in places {
        count += count_one(builds, *place);
    }
    count
}
