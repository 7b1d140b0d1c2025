//! Whether two answers are one.
ghost use Rattle.std.specs.Prelude.{◌≡◌, true, false};
ghost use Rattle.transcript_audit.specs.Tests.{same_answer, same_answers, is_owed, is_wide};

use crate::equal::same_pieces;
use crate::told::{
    is_broken, is_compacting, is_done, is_dropped, is_empty, is_ended, is_file_changed, is_given,
    is_good, is_granted, is_handle_failed, is_held, is_job, is_left, is_lost_job, is_move_failed,
    is_move_unread, is_moved, is_nothing, is_opened, is_page_failed, is_page_fault, is_paged,
    is_planned, is_refused, is_removed, is_revoked, is_store_failed, is_stored, is_taken, is_told,
    is_wait,
};
use answer_text::Answer;

/// An answer of many values.
fn is_wide_answer(answer: &Answer, wanted: &Answer) -> bool
    ensures { is_wide wanted.now ≡ true → result ≡ same_answer answer.now wanted.now }
{
    match wanted {
        Answer::Told {
            b,
            size,
            kind,
            status,
        } => is_told(answer, *b, u128::from(*size), kind.as_slice(), *status),
        Answer::Opened { q, size, kind } => {
            is_opened(answer, *q, u128::from(*size), kind.as_slice())
        }
        Answer::Held {
            blobs,
            urls,
            readers,
            waiting,
            paging,
        } => is_held(
            answer,
            *blobs as usize,
            *urls as usize,
            *readers as usize,
            *waiting as usize,
            *paging,
        ),
        _ => false,
    }
}

/// An answer that a line has of itself.
fn is_own_answer(answer: &Answer, wanted: &Answer) -> bool
    ensures { is_owed wanted.now ≡ false → result ≡ same_answer answer.now wanted.now }
{
    match wanted {
        Answer::Good => is_good(answer),
        Answer::Refused(why) => is_refused(answer, *why),
        Answer::Planned(plan) => is_planned(answer, *plan),
        Answer::Taken(segment) => is_taken(answer, *segment),
        Answer::Stored(file, piece) => is_stored(answer, u64::from(file.0), piece.0),
        Answer::StoreFailed(file) => is_store_failed(answer, u64::from(file.0)),
        Answer::Revoked => is_revoked(answer),
        Answer::Nothing => is_nothing(answer),
        Answer::Given(q, bytes) => is_given(answer, *q, bytes.as_slice()),
        Answer::Wait(q) => is_wait(answer, *q),
        Answer::Ended(q, status) => is_ended(answer, *q, *status),
        Answer::FileChanged(q, name) => is_file_changed(answer, *q, name.as_slice()),
        Answer::PageFault(q, file) => is_page_fault(answer, *q, file.0),
        Answer::HandleFailed(q, slot) => is_handle_failed(answer, *q, *slot),
        Answer::Paged(j, file, list) => is_paged(answer, *j, u64::from(file.0), list.as_slice()),
        Answer::Empty(j) => is_empty(answer, *j),
        Answer::PageFailed(j, file) => is_page_failed(answer, *j, u64::from(file.0)),
        Answer::Moved(j, file, list) => is_moved(answer, *j, u64::from(file.0), list.as_slice()),
        Answer::MoveFailed(j, file) => is_move_failed(answer, *j, u64::from(file.0)),
        Answer::MoveUnread(j, file) => is_move_unread(answer, *j, file.0),
        Answer::LostJob(j) => is_lost_job(answer, *j),
        Answer::Told { .. } | Answer::Opened { .. } | Answer::Held { .. } => {
            is_wide_answer(answer, wanted)
        }
        Answer::Broken(..)
        | Answer::Dropped(_)
        | Answer::Done(_)
        | Answer::Removed(_)
        | Answer::Left(_)
        | Answer::Granted(_)
        | Answer::Job(..)
        | Answer::Compacting(..) => false,
    }
}

/// Whether two answers are one.
pub fn is_answer(answer: &Answer, wanted: &Answer) -> bool
    ensures { result ≡ same_answer answer.now wanted.now }
{
    match wanted {
        Answer::Broken(name, status) => is_broken(answer, *name, *status),
        Answer::Dropped(name) => is_dropped(answer, *name),
        Answer::Done(name) => is_done(answer, *name),
        Answer::Removed(file) => is_removed(answer, file.0),
        Answer::Left(file) => is_left(answer, file.0),
        Answer::Granted(name) => is_granted(answer, *name),
        Answer::Job(j, list) => is_job(answer, u64::from(j.0), list.as_slice()),
        Answer::Compacting(j, file, list) => {
            is_compacting(answer, u64::from(j.0), file.0, list.as_slice())
        }
        Answer::Good
        | Answer::Refused(_)
        | Answer::Planned(_)
        | Answer::Taken(_)
        | Answer::Stored(..)
        | Answer::StoreFailed(_)
        | Answer::Told { .. }
        | Answer::Revoked
        | Answer::Nothing
        | Answer::Opened { .. }
        | Answer::Given(..)
        | Answer::Wait(_)
        | Answer::Ended(..)
        | Answer::FileChanged(..)
        | Answer::PageFault(..)
        | Answer::HandleFailed(..)
        | Answer::Paged(..)
        | Answer::Empty(_)
        | Answer::PageFailed(..)
        | Answer::Moved(..)
        | Answer::MoveFailed(..)
        | Answer::MoveUnread(..)
        | Answer::LostJob(_)
        | Answer::Held { .. } => is_own_answer(answer, wanted),
    }
}

/// Whether two lists of answers are one.
pub fn are_same(list: &[Answer], wanted: &[Answer]) -> bool
    ensures { result ≡ same_answers list.now wanted.now }
{
    if list.len() != wanted.len() {
        return false;
    }
    for place in 0..wanted.len() {
        if !is_answer(&list[place], &wanted[place]) {
            return false;
        }
    }
    true
}
