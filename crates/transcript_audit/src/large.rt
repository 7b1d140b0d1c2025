//! Lines that build more than is judged.
ghost use Rattle.std.specs.Prelude.{◌≡◌, ◌+◌, ◌&&◌, sum_by, nat_lt, is_none, IfOk};
ghost use Rattle.blob_model.specs.Session.{Session, page_limit};
ghost use Rattle.blob_model.specs.History.{History};
ghost use Rattle.blob_model.specs.Parts.{parts_length};
ghost use Rattle.blob_model.specs.Builds.{size, builds};
ghost use Rattle.blob_model.specs.Refusals.{refusal};
ghost use Rattle.history_notions.specs.Follows.{Follows};
ghost use Rattle.transcript_audit.specs.Large.{has_too_many, is_large};

use crate::why::refusal;
use blob_words::{BlobName, NoMemory, RendererId};
use history_notions::builds::{Build, size};
use history_notions::contents::Contents;
use history_notions::parts::{add, parts_length};
use session_script::{Event, Part};

/// The cells of all blobs of a transcript that is judged, at most.
pub const MOST_CELLS: u128 = 16_777_216;

/// The sizes of these blobs.
fn size_of(builds: &[Build]) -> Result<u128, NoMemory>
    ensures { IfOk result (λ total. total ≡ sum_by size builds.now) }
{
    let mut total = 0;
    for build in builds {
        total = add(total, size(build))?;
    }
    Ok(total)
}

/// Whether all blobs with one of so many bytes have too many cells.
fn is_past_most(contents: &Contents, len: u128) -> Result<bool, NoMemory>
    ensures { IfOk result (λ past. (s : Session) (h : History) → Follows s h contents.now
        → past ≡ nat_lt MOST_CELLS (sum_by size (builds (page_limit s) h) + len)) }
{
    let total = size_of(contents.builds.as_slice())?;
    let sum = add(total, len)?;
    Ok(sum > MOST_CELLS)
}

/// Whether the line is accepted, a blob of these parts doesn't break at it, and all blobs with it
/// have too many cells.
fn builds_too_many(
    contents: &Contents,
    event: &Event,
    r: RendererId,
    b: BlobName,
    parts: &[Part],
) -> Result<bool, NoMemory>
    ensures { IfOk result (λ many. (s : Session) (h : History) → Follows s h contents.now
        → many ≡ (is_none (refusal s h event.now) && has_too_many s h r b parts.now)) }
{
    // The cells first: few lines pass them, and the refusal asks for what is reached.
    let past = is_past_most(contents, parts_length(parts))?;
    if !past {
        return Ok(false);
    }
    let why = refusal(contents, event)?;
    if why.is_some() {
        return Ok(false);
    }
    let status = contents.line_status(r.0, b, parts)?;
    Ok(status.is_none())
}

/// Whether the line is an accepted one whose blob doesn't break at it, and all blobs with it have
/// too many cells.
pub fn is_large(contents: &Contents, event: &Event) -> Result<bool, NoMemory>
    ensures { IfOk result (λ large. (s : Session) (h : History) → Follows s h contents.now
        → large ≡ is_large s h event.now) }
{
    match event {
        Event::Build { r, b, parts, .. } => {
            let many = builds_too_many(contents, event, *r, *b, parts.as_slice())?;
            Ok(many)
        }
        Event::Slice {
            r,
            b,
            src,
            start,
            end,
            ..
        } => {
            let parts = contents.slice_parts(*src, *start, *end)?;
            let many = builds_too_many(contents, event, *r, *b, parts.as_slice())?;
            Ok(many)
        }
        _ => Ok(false),
    }
}
