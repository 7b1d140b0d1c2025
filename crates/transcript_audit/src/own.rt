//! The own answer of an accepted line that has one.
ghost use Rattle.std.specs.Prelude.{◌≡◌, [], ◌∷◌, IfOk};
ghost use Rattle.session_script.specs.declared.event.Event.TheVariants as events;
ghost use Rattle.blob_model.specs.Session.{Session, page_limit};
ghost use Rattle.blob_model.specs.History.{History};
ghost use Rattle.blob_model.specs.Builds.{builds, slice_parts};
ghost use Rattle.blob_model.specs.Construct.{build_answer};
ghost use Rattle.blob_model.specs.Own.{accepted, blob_at, opened_answer};
ghost use Rattle.history_notions.specs.Follows.{Follows};
ghost use Rattle.transcript_audit.specs.Tests.{same_answer, is_among};

use crate::stands::{blob_at, count_at, kind_in, owns_entry, status_of};
use crate::told::{is_broken, is_held, is_nothing, is_opened, is_planned, is_revoked, is_told};
use answer_text::Answer;
use blob_words::{BlobName, NoMemory, ReaderId, RendererId, UrlText};
use history_notions::contents::Contents;
use session_script::Part;

/// A blob breaks at its line, or has a plan.
pub fn is_build_answer(
    contents: &Contents,
    answer: &Answer,
    r: RendererId,
    b: BlobName,
    parts: &[Part],
) -> Result<bool, NoMemory>
    ensures { IfOk result (λ is_own. (s : Session) (h : History) → Follows s h contents.now
        → is_own ≡ same_answer answer.now (build_answer s h r.0 b parts.now)) }
{
    let status = contents.line_status(r.0, b, parts)?;
    if let Some(status) = status {
        return Ok(is_broken(answer, b, status));
    }
    let plan = contents.plan_for(parts)?;
    Ok(is_planned(answer, plan))
}

/// A slice breaks at its line, or has a plan.
pub fn is_slice_answer(
    contents: &Contents,
    answer: &Answer,
    r: RendererId,
    b: BlobName,
    source: BlobName,
    start: Option<i64>,
    end: Option<i64>,
) -> Result<bool, NoMemory>
    ensures { IfOk result (λ is_own. (s : Session) (h : History) → Follows s h contents.now
        → is_own ≡ same_answer answer.now
        (build_answer s h r.0 b (slice_parts (builds (page_limit s) h) source start end))) }
{
    let parts = contents.slice_parts(source, start, end)?;
    let is_own = is_build_answer(contents, answer, r, b, parts.as_slice())?;
    Ok(is_own)
}

/// The answer to `stat`.
pub fn is_stat_answer(
    contents: &Contents,
    answer: &Answer,
    r: RendererId,
    b: BlobName,
) -> Result<bool, NoMemory>
    ensures { IfOk result (λ is_own. (s : Session) (h : History) → Follows s h contents.now
        → is_own ≡ is_among answer.now (accepted s h (events.Stat r b) ∷ [])) }
{
    let status = status_of(contents, b)?;
    let size = contents.size_in(b);
    Ok(is_told(answer, b, size, kind_in(contents, b), status))
}

/// The answer to `revoke`.
pub fn is_revoke_answer(contents: &Contents, answer: &Answer, r: RendererId, text: &UrlText) -> bool
    ensures { (s : Session) (h : History) → Follows s h contents.now
        → result ≡ is_among answer.now (accepted s h (events.Revoke r text.now) ∷ []) }
{
    if owns_entry(contents, r, text) {
        is_revoked(answer)
    } else {
        is_nothing(answer)
    }
}

/// Opening a reader tells the size and the content type of its blob.
pub fn is_opened_on(contents: &Contents, answer: &Answer, q: ReaderId, b: BlobName) -> bool
    ensures { (s : Session) (h : History) → Follows s h contents.now
        → result ≡ same_answer answer.now (opened_answer s h q b) }
{
    is_opened(answer, q, contents.size_in(b), kind_in(contents, b))
}

/// The answer to `fetch`.
pub fn is_fetch_answer(
    contents: &Contents,
    answer: &Answer,
    r: RendererId,
    q: ReaderId,
    text: &UrlText,
) -> bool
    ensures { (s : Session) (h : History) → Follows s h contents.now
        → result ≡ same_answer answer.now (opened_answer s h q (blob_at h r.0 text.now)) }
{
    is_opened_on(contents, answer, q, blob_at(contents, r, text))
}

/// The answer to `tally`.
pub fn is_count_answer(contents: &Contents, answer: &Answer) -> Result<bool, NoMemory>
    ensures { IfOk result (λ is_own. (s : Session) (h : History) → Follows s h contents.now
        → is_own ≡ is_among answer.now (accepted s h events.Count ∷ [])) }
{
    let live = contents.live()?;
    let waiting = contents.waits()?;
    let builds = contents.builds.as_slice();
    let blobs = count_at(builds, live.as_slice());
    let waits = count_at(builds, waiting.as_slice());
    let urls = contents.kept.entries.as_slice().len();
    let readers = contents.readers.as_slice().len();
    Ok(is_held(answer, blobs, urls, readers, waits, contents.kept.paging))
}
