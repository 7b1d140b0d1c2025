//! The answers of a transcript, put.

ghost use Rattle.std.specs.Prelude.{◌≡◌, ◌∷◌, decimal};
ghost use Rattle.text_fields.specs.Fields.{fields};
ghost use Rattle.text_fields.specs.Output.{IsPutTo};
ghost use Rattle.answer_text.specs.Text.{word_of, answer_fields, answer_text, piece_fields};

use crate::answer::Answer;
use crate::answer_word::AnswerWord;
use crate::plans::put_plan;
use crate::refusals::put_refusal;
use blob_source::Sink;
use blob_words::{Failed, JobNo, PageNo, PieceList};
use text_fields::buffer::Buffer;
use text_fields::field::{Broken, Ending, Spell, Told};
use text_fields::keyword::Keyword;
use text_fields::put::put_each;
use text_fields::values::Values;

fn word_of(answer: &Answer) -> AnswerWord
    ensures { result ≡ word_of answer.now }
{
    match answer {
        Answer::Good => AnswerWord::Good,
        Answer::Refused(..) => AnswerWord::Refused,
        Answer::Planned(..) => AnswerWord::Planned,
        Answer::Broken(..) => AnswerWord::Broken,
        Answer::Taken(..) => AnswerWord::Taken,
        Answer::Stored(..) => AnswerWord::Stored,
        Answer::StoreFailed(..) => AnswerWord::StoreFailed,
        Answer::Told { .. } => AnswerWord::Told,
        Answer::Revoked => AnswerWord::Revoked,
        Answer::Nothing => AnswerWord::Nothing,
        Answer::Opened { .. } => AnswerWord::Opened,
        Answer::Given(..) => AnswerWord::Given,
        Answer::Wait(..) => AnswerWord::Wait,
        Answer::Ended(..) => AnswerWord::Ended,
        Answer::FileChanged(..) => AnswerWord::FileChanged,
        Answer::PageFault(..) => AnswerWord::PageFault,
        Answer::HandleFailed(..) => AnswerWord::HandleFailed,
        Answer::Paged(..) => AnswerWord::Paged,
        Answer::Empty(..) => AnswerWord::Empty,
        Answer::PageFailed(..) => AnswerWord::PageFailed,
        Answer::Moved(..) => AnswerWord::Moved,
        Answer::MoveFailed(..) => AnswerWord::MoveFailed,
        Answer::MoveUnread(..) => AnswerWord::MoveUnread,
        Answer::LostJob(..) => AnswerWord::LostJob,
        Answer::Held { .. } => AnswerWord::Held,
        Answer::Dropped(..) => AnswerWord::Dropped,
        Answer::Done(..) => AnswerWord::Done,
        Answer::Removed(..) => AnswerWord::Removed,
        Answer::Left(..) => AnswerWord::Left,
        Answer::Granted(..) => AnswerWord::Granted,
        Answer::Job(..) => AnswerWord::Job,
        Answer::Compacting(..) => AnswerWord::Compacting,
    }
}

fn put_job_pieces<K: Sink>(
    buffer: &mut Buffer,
    out: &mut K,
    j: &JobNo,
    ps: &PieceList,
) -> Result<(), Failed>
    ensures { IsPutTo K.Sink out.old out.new buffer.old buffer.new
        (fields 32 (decimal j.now.0 ∷ piece_fields ps.now)) result }
{
    match (j,).put_all(buffer, out, b' ') {
        Ok(()) => put_each(buffer, out, b' ', ps.as_slice()),
        Err(Failed) => Err(Failed),
    }
}

fn put_paged_pieces<K: Sink>(
    buffer: &mut Buffer,
    out: &mut K,
    j: &JobNo,
    f: &PageNo,
    ps: &PieceList,
) -> Result<(), Failed>
    ensures { IsPutTo K.Sink out.old out.new buffer.old buffer.new
        (fields 32 (decimal j.now.0 ∷ decimal f.now.0 ∷ piece_fields ps.now)) result }
{
    match (j, f).put_all(buffer, out, b' ') {
        Ok(()) => put_each(buffer, out, b' ', ps.as_slice()),
        Err(Failed) => Err(Failed),
    }
}

fn put_behind<K: Sink>(buffer: &mut Buffer, out: &mut K, answer: &Answer) -> Result<(), Failed>
    ensures { IsPutTo K.Sink out.old out.new buffer.old buffer.new
        (fields 32 (answer_fields answer.now)) result }
{
    match answer {
        Answer::Good => Ok(()),
        Answer::Refused(refusal) => put_refusal(buffer, out, refusal),
        Answer::Planned(plan) => put_plan(buffer, out, *plan),
        Answer::Broken(b, status) => (b, Broken(*status)).put_all(buffer, out, b' '),
        Answer::Taken(seg) => (seg,).put_all(buffer, out, b' '),
        Answer::Stored(f, p) => (f, p).put_all(buffer, out, b' '),
        Answer::StoreFailed(f) => (f,).put_all(buffer, out, b' '),
        Answer::Told {
            b,
            size,
            kind,
            status,
        } => (b, size, kind, Told(*status)).put_all(buffer, out, b' '),
        Answer::Revoked => Ok(()),
        Answer::Nothing => Ok(()),
        Answer::Opened { q, size, kind } => (q, size, kind).put_all(buffer, out, b' '),
        Answer::Given(q, octets) => (q, octets).put_all(buffer, out, b' '),
        Answer::Wait(q) => (q,).put_all(buffer, out, b' '),
        Answer::Ended(q, status) => (q, Ending(*status)).put_all(buffer, out, b' '),
        Answer::FileChanged(q, file) => (q, file).put_all(buffer, out, b' '),
        Answer::PageFault(q, f) => (q, f).put_all(buffer, out, b' '),
        Answer::HandleFailed(q, k) => (q, k).put_all(buffer, out, b' '),
        Answer::Paged(j, f, ps) => put_paged_pieces(buffer, out, j, f, ps),
        Answer::Empty(j) => (j,).put_all(buffer, out, b' '),
        Answer::PageFailed(j, f) => (j, f).put_all(buffer, out, b' '),
        Answer::Moved(j, f, ps) => put_paged_pieces(buffer, out, j, f, ps),
        Answer::MoveFailed(j, f) => (j, f).put_all(buffer, out, b' '),
        Answer::MoveUnread(j, f) => (j, f).put_all(buffer, out, b' '),
        Answer::LostJob(j) => (j,).put_all(buffer, out, b' '),
        Answer::Held {
            blobs,
            urls,
            readers,
            waiting,
            paging,
        } => (blobs, urls, readers, waiting, paging).put_all(buffer, out, b' '),
        Answer::Dropped(b) => (b,).put_all(buffer, out, b' '),
        Answer::Done(b) => (b,).put_all(buffer, out, b' '),
        Answer::Removed(f) => (f,).put_all(buffer, out, b' '),
        Answer::Left(f) => (f,).put_all(buffer, out, b' '),
        Answer::Granted(b) => (b,).put_all(buffer, out, b' '),
        Answer::Job(j, ps) => put_job_pieces(buffer, out, j, ps),
        Answer::Compacting(j, f, ps) => put_paged_pieces(buffer, out, j, f, ps),
    }
}

impl Spell for Answer {
    ghost use Rattle.answer_text.specs.Text.{answer_text};

    ghost spell = { answer_text };

    fn put<K: Sink>(&self, buffer: &mut Buffer, out: &mut K) -> Result<(), Failed> {
        match buffer.put(out, word_of(self).text()) {
            Ok(()) => put_behind(buffer, out, self),
            Err(Failed) => Err(Failed),
        }
    }
}
