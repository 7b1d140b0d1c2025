//! The own answers of the lines that call the disk.
ghost use Rattle.std.specs.Prelude.{◌≡◌, [], ◌∷◌, ℕ, List, filter, ◌==◌, true, IfOk};
ghost use Rattle.session_script.specs.declared.event.Event.TheVariants as events;
ghost use Rattle.blob_words.specs.declared.number.RendererId.{RendererId};
ghost use Rattle.blob_model.specs.Session.{Session};
ghost use Rattle.blob_model.specs.History.{History};
ghost use Rattle.blob_model.specs.Pages.{next_page};
ghost use Rattle.blob_model.specs.Own.{accepted, failing, job_done, job_failed, plan_in, piece_at, source_of};
ghost use Rattle.blob_model.specs.Jobs.{in_flight};
ghost use Rattle.blob_model.specs.Settle.{piece_list};
ghost use Rattle.history_notions.specs.Follows.{Follows};
ghost use Rattle.transcript_audit.specs.Tests.{is_among, is_file, is_pair_among};

use crate::starts::piece_list;
use crate::told::{
    is_empty, is_move_failed, is_move_unread, is_moved, is_page_failed, is_paged, is_store_failed,
    is_stored, is_taken,
};
use answer_text::Answer;
use blob_words::{BlobName, ItemList, JobNo, NoMemory, PieceNo, Plan};
use history_notions::contents::Contents;
use history_notions::jobs::Job;
use history_notions::pieces::Piece;
use std::alloc::Global;

/// The answers of a job of which pieces are left: they are written, or the write or a read fails.
fn is_some_done(
    answer: &Answer,
    job: JobNo,
    page: u64,
    source: Option<u32>,
    left: &[PieceNo],
) -> bool
    ensures { (h : History) (first : ℕ) (more : List ℕ) → page ≡ next_page h
        → left.now ≡ piece_list (first ∷ more) → result ≡ is_among answer.now
        ((job_done h job source (first ∷ more) ∷ []) ∷ job_failed h job source (first ∷ more)) }
{
    match source {
        None => is_paged(answer, job, page, left) || is_page_failed(answer, job, page),
        Some(file) => {
            is_moved(answer, job, page, left)
                || is_move_failed(answer, job, page)
                || is_move_unread(answer, job, file)
        }
    }
}

/// The answers of a job; one without pieces left is empty.
fn is_done(answer: &Answer, job: JobNo, page: u64, source: Option<u32>, left: &[PieceNo]) -> bool
    ensures { (h : History) (numbers : List ℕ) → page ≡ next_page h
        → left.now ≡ piece_list numbers → result ≡ is_among answer.now
        ((job_done h job source numbers ∷ []) ∷ job_failed h job source numbers) }
{
    if left.is_empty() {
        return is_empty(answer, job);
    }
    is_some_done(answer, job, page, source, left)
}

/// The page file that the job in flight moves pieces out of.
fn source_of(job: &Option<Job>) -> Option<u32>
    ensures { result ≡ source_of job.now }
{
    match job {
        Some(job) => job.source,
        None => None,
    }
}

/// The answers to `disk`.
pub fn is_disk_answer(contents: &Contents, answer: &Answer, j: JobNo) -> Result<bool, NoMemory>
    ensures { IfOk result (λ is_own. (s : Session) (h : History) → Follows s h contents.now
        → is_own ≡ is_among answer.now
        (accepted s h (events.Disk j) ∷ failing s h (events.Disk j))) }
{
    let list = contents.reached()?;
    let left = contents.job_left(list.as_slice())?;
    let numbers = piece_list(contents.alloc, left.as_slice())?;
    let source = source_of(&contents.kept.job);
    let page = contents.kept.next_page;
    Ok(is_done(answer, j, page, source, numbers.as_slice()))
}

/// Whether the plan is that each segment goes to a page file.
pub fn is_filed(contents: &Contents, b: BlobName) -> bool
    ensures { (s : Session) (h : History) → Follows s h contents.now
        → result ≡ is_file (plan_in s h b) }
{
    match contents.build(b) {
        Some(build) => matches!(build.plan, Some(Plan::File(_))),
        None => false,
    }
}

/// The pieces of one blob.
fn pieces_of(alloc: Global, pieces: &[Piece], name: BlobName) -> Result<ItemList<Piece>, NoMemory>
    ensures { IfOk result (λ found. found ≡ filter (λ piece. piece.blob == name) pieces.now) }
{
    let mut found = ItemList::new(alloc);
    for piece in pieces {
        if piece.blob == name {
            found.push(*piece)?;
        }
    }
    Ok(found)
}

/// The piece that a segment of a file plan brings.
fn piece_at(contents: &Contents, b: BlobName, segment: u32) -> Result<u32, NoMemory>
    ensures { IfOk result (λ number. (s : Session) (h : History) → Follows s h contents.now
        → number ≡ piece_at s h b segment) }
{
    let found = pieces_of(contents.alloc, contents.pieces.as_slice(), b)?;
    match found.as_slice().get(segment as usize) {
        Some(piece) => Ok(piece.number),
        None => Ok(0),
    }
}

/// The two answers to a segment that goes to a page file.
pub fn is_segment_answer(
    contents: &Contents,
    first: &Answer,
    second: &Answer,
    b: BlobName,
    segment: u32,
) -> Result<bool, NoMemory>
    ensures { IfOk result (λ is_own. (s : Session) (h : History) (r : RendererId) (bytes : List ℕ)
        → Follows s h contents.now → is_file (plan_in s h b) ≡ true
        → is_own ≡ is_pair_among first.now second.now
        (accepted s h (events.Segment r b segment bytes)
        ∷ failing s h (events.Segment r b segment bytes))) }
{
    let number = piece_at(contents, b, segment)?;
    let page = contents.kept.next_page;
    let written = is_stored(second, page, number) || is_store_failed(second, page);
    Ok(is_taken(first, segment) && written)
}
