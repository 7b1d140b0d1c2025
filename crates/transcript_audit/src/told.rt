//! Whether an answer is one of this kind with these values.
ghost use Rattle.std.specs.Prelude.{◌≡◌, ℕ, List};
ghost use Rattle.answer_text.specs.declared.answer.Answer.TheVariants as answers;
ghost use Rattle.blob_model.specs.Settle.{page_no, job_no};
ghost use Rattle.blob_model.specs.Own.{piece_no};
ghost use Rattle.transcript_audit.specs.Tests.{same_answer};

use crate::equal::{is_same, same_pieces, same_plan, same_refusal, same_status};
use answer_text::{Answer, Refusal};
use blob_words::{BlobName, JobNo, PieceNo, Plan, ReaderId, Status};

/// The line was accepted.
pub fn is_good(answer: &Answer) -> bool
    ensures { result ≡ same_answer answer.now answers.Good }
{
    matches!(answer, Answer::Good)
}

/// The line was refused for this.
pub fn is_refused(answer: &Answer, why: Refusal) -> bool
    ensures { result ≡ same_answer answer.now (answers.Refused why) }
{
    match answer {
        Answer::Refused(told) => same_refusal(*told, why),
        _ => false,
    }
}

/// A blob was built with this plan.
pub fn is_planned(answer: &Answer, plan: Plan) -> bool
    ensures { result ≡ same_answer answer.now (answers.Planned plan) }
{
    match answer {
        Answer::Planned(told) => same_plan(*told, plan),
        _ => false,
    }
}

/// The blob broke with this status.
pub fn is_broken(answer: &Answer, name: BlobName, status: Status) -> bool
    ensures { result ≡ same_answer answer.now (answers.Broken name status) }
{
    match answer {
        Answer::Broken(b, told) => *b == name && same_status(*told, status),
        _ => false,
    }
}

/// The segment was taken.
pub fn is_taken(answer: &Answer, segment: u32) -> bool
    ensures { result ≡ same_answer answer.now (answers.Taken segment) }
{
    match answer {
        Answer::Taken(told) => *told == segment,
        _ => false,
    }
}

/// The piece was written to the page file.
pub fn is_stored(answer: &Answer, file: u64, piece: u32) -> bool
    ensures { result ≡ same_answer answer.now (answers.Stored (page_no file) (piece_no piece)) }
{
    match answer {
        Answer::Stored(told, number) => u64::from(told.0) == file && number.0 == piece,
        _ => false,
    }
}

/// The page file of a segment could not be written.
pub fn is_store_failed(answer: &Answer, file: u64) -> bool
    ensures { result ≡ same_answer answer.now (answers.StoreFailed (page_no file)) }
{
    match answer {
        Answer::StoreFailed(told) => u64::from(told.0) == file,
        _ => false,
    }
}

/// The URL was revoked.
pub fn is_revoked(answer: &Answer) -> bool
    ensures { result ≡ same_answer answer.now answers.Revoked }
{
    matches!(answer, Answer::Revoked)
}

/// There was no URL to revoke.
pub fn is_nothing(answer: &Answer) -> bool
    ensures { result ≡ same_answer answer.now answers.Nothing }
{
    matches!(answer, Answer::Nothing)
}

/// The reader gives these bytes.
pub fn is_given(answer: &Answer, q: ReaderId, bytes: &[u8]) -> bool
    ensures { result ≡ same_answer answer.now (answers.Given q bytes.now) }
{
    match answer {
        Answer::Given(told, given) => told.0 == q.0 && is_same(given.as_slice(), bytes),
        _ => false,
    }
}

/// The reader waits.
pub fn is_wait(answer: &Answer, q: ReaderId) -> bool
    ensures { result ≡ same_answer answer.now (answers.Wait q) }
{
    match answer {
        Answer::Wait(told) => told.0 == q.0,
        _ => false,
    }
}

/// The reader ended with this status.
pub fn is_ended(answer: &Answer, q: ReaderId, status: Status) -> bool
    ensures { result ≡ same_answer answer.now (answers.Ended q status) }
{
    match answer {
        Answer::Ended(told, how) => told.0 == q.0 && same_status(*how, status),
        _ => false,
    }
}

/// The reader found the file changed.
pub fn is_file_changed(answer: &Answer, q: ReaderId, name: &[u8]) -> bool
    ensures { result ≡ same_answer answer.now (answers.FileChanged q name.now) }
{
    match answer {
        Answer::FileChanged(told, file) => told.0 == q.0 && is_same(file.as_slice(), name),
        _ => false,
    }
}

/// The reader could not read the page file.
pub fn is_page_fault(answer: &Answer, q: ReaderId, file: u32) -> bool
    ensures { result ≡ same_answer answer.now (answers.PageFault q (page_no file)) }
{
    match answer {
        Answer::PageFault(told, page) => told.0 == q.0 && page.0 == file,
        _ => false,
    }
}

/// The reader could not read the data handle.
pub fn is_handle_failed(answer: &Answer, q: ReaderId, slot: u32) -> bool
    ensures { result ≡ same_answer answer.now (answers.HandleFailed q slot) }
{
    match answer {
        Answer::HandleFailed(told, k) => told.0 == q.0 && *k == slot,
        _ => false,
    }
}

/// The job's pieces were written to the page file.
pub fn is_paged(answer: &Answer, job: JobNo, file: u64, list: &[PieceNo]) -> bool
    ensures { result ≡ same_answer answer.now (answers.Paged job (page_no file) list.now) }
{
    match answer {
        Answer::Paged(told, page, pieces) => told.0 == job.0
            && u64::from(page.0) == file
            && same_pieces(pieces.as_slice(), list),
        _ => false,
    }
}

/// The job had no piece left.
pub fn is_empty(answer: &Answer, job: JobNo) -> bool
    ensures { result ≡ same_answer answer.now (answers.Empty job) }
{
    match answer {
        Answer::Empty(told) => told.0 == job.0,
        _ => false,
    }
}

/// The job's page file could not be written.
pub fn is_page_failed(answer: &Answer, job: JobNo, file: u64) -> bool
    ensures { result ≡ same_answer answer.now (answers.PageFailed job (page_no file)) }
{
    match answer {
        Answer::PageFailed(told, page) => told.0 == job.0 && u64::from(page.0) == file,
        _ => false,
    }
}

/// The job's pieces moved to the page file.
pub fn is_moved(answer: &Answer, job: JobNo, file: u64, list: &[PieceNo]) -> bool
    ensures { result ≡ same_answer answer.now (answers.Moved job (page_no file) list.now) }
{
    match answer {
        Answer::Moved(told, page, pieces) => told.0 == job.0
            && u64::from(page.0) == file
            && same_pieces(pieces.as_slice(), list),
        _ => false,
    }
}

/// The new page file of a move could not be written.
pub fn is_move_failed(answer: &Answer, job: JobNo, file: u64) -> bool
    ensures { result ≡ same_answer answer.now (answers.MoveFailed job (page_no file)) }
{
    match answer {
        Answer::MoveFailed(told, page) => told.0 == job.0 && u64::from(page.0) == file,
        _ => false,
    }
}

/// The old page file of a move could not be read.
pub fn is_move_unread(answer: &Answer, job: JobNo, file: u32) -> bool
    ensures { result ≡ same_answer answer.now (answers.MoveUnread job (page_no file)) }
{
    match answer {
        Answer::MoveUnread(told, page) => told.0 == job.0 && page.0 == file,
        _ => false,
    }
}

/// The job was lost.
pub fn is_lost_job(answer: &Answer, job: JobNo) -> bool
    ensures { result ≡ same_answer answer.now (answers.LostJob job) }
{
    match answer {
        Answer::LostJob(told) => told.0 == job.0,
        _ => false,
    }
}

/// The blob was dropped.
pub fn is_dropped(answer: &Answer, name: BlobName) -> bool
    ensures { result ≡ same_answer answer.now (answers.Dropped name) }
{
    match answer {
        Answer::Dropped(b) => *b == name,
        _ => false,
    }
}

/// The blob is done.
pub fn is_done(answer: &Answer, name: BlobName) -> bool
    ensures { result ≡ same_answer answer.now (answers.Done name) }
{
    match answer {
        Answer::Done(b) => *b == name,
        _ => false,
    }
}

/// The page file was removed.
pub fn is_removed(answer: &Answer, file: u32) -> bool
    ensures { result ≡ same_answer answer.now (answers.Removed (page_no file)) }
{
    match answer {
        Answer::Removed(told) => told.0 == file,
        _ => false,
    }
}

/// The page file was left.
pub fn is_left(answer: &Answer, file: u32) -> bool
    ensures { result ≡ same_answer answer.now (answers.Left (page_no file)) }
{
    match answer {
        Answer::Left(told) => told.0 == file,
        _ => false,
    }
}

/// The blob has its room.
pub fn is_granted(answer: &Answer, name: BlobName) -> bool
    ensures { result ≡ same_answer answer.now (answers.Granted name) }
{
    match answer {
        Answer::Granted(b) => *b == name,
        _ => false,
    }
}

/// The job begins with these pieces.
pub fn is_job(answer: &Answer, job: u64, list: &[PieceNo]) -> bool
    ensures { result ≡ same_answer answer.now (answers.Job (job_no job) list.now) }
{
    match answer {
        Answer::Job(told, pieces) => u64::from(told.0) == job
            && same_pieces(pieces.as_slice(), list),
        _ => false,
    }
}

/// The job begins to move these pieces out of the page file.
pub fn is_compacting(answer: &Answer, job: u64, file: u32, list: &[PieceNo]) -> bool
    ensures { result
        ≡ same_answer answer.now (answers.Compacting (job_no job) (page_no file) list.now) }
{
    match answer {
        Answer::Compacting(told, page, pieces) => u64::from(told.0) == job
            && page.0 == file
            && same_pieces(pieces.as_slice(), list),
        _ => false,
    }
}

/// How the blob stands.
pub fn is_told(answer: &Answer, name: BlobName, bytes: u128, as_kind: &[u8], stands: Status) -> bool
    ensures { result ≡ same_answer answer.now (answers.Told name bytes as_kind.now stands) }
{
    match answer {
        Answer::Told {
            b,
            size,
            kind,
            status,
        } => {
            *b == name
                && u128::from(*size) == bytes
                && is_same(kind.as_slice(), as_kind)
                && same_status(*status, stands)
        }
        _ => false,
    }
}

/// The reader is open on a blob of this size and content type.
pub fn is_opened(answer: &Answer, reader: ReaderId, bytes: u128, as_kind: &[u8]) -> bool
    ensures { result ≡ same_answer answer.now (answers.Opened reader bytes as_kind.now) }
{
    match answer {
        Answer::Opened { q, size, kind } => {
            q.0 == reader.0 && u128::from(*size) == bytes && is_same(kind.as_slice(), as_kind)
        }
        _ => false,
    }
}

/// So many live blobs, URLs, open readers and waiting blobs are counted.
pub fn is_held(
    answer: &Answer,
    live: usize,
    entries: usize,
    reading: usize,
    waits: usize,
    pages: bool,
) -> bool
    ensures { result ≡ same_answer answer.now (answers.Held live entries reading waits pages) }
{
    match answer {
        Answer::Held {
            blobs,
            urls,
            readers,
            waiting,
            paging,
        } => {
            *blobs as usize == live
                && *urls as usize == entries
                && *readers as usize == reading
                && *waiting as usize == waits
                && *paging == pages
        }
        _ => false,
    }
}
