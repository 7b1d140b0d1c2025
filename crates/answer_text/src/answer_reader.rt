//! The answers of a transcript, read and put.

ghost use Rattle.std.specs.Prelude.{◌≡◌, ◌∷◌};
ghost use Rattle.text_fields.specs.Fields.{fields};
ghost use Rattle.text_fields.specs.Output.{output, IsPut};
ghost use Rattle.text_fields.specs.Reading.{split};
ghost use Rattle.answer_text.specs.Fault.{IsAnswer, IsJob, IsPaged, ReadsAs};
ghost use Rattle.answer_text.specs.Reading.{ReadsAnswer};
ghost use Rattle.answer_text.specs.Text.{word_of, answer_fields, answer_text, piece_fields};
ghost use Rattle.answer_text.specs.Text.{HasText};

use crate::answer::Answer;
use crate::answer_word::AnswerWord;
use crate::plans::{put_plan, read_plan};
use crate::refusals::{put_refusal, read_refusal};
use crate::rows::{read_job_pieces, read_paged_pieces, read_row};
use crate::text_fault::TextFault;
use blob_source::Sink;
use blob_words::{BlobName, Failed, FileName, JobNo, PageNo, PieceList, PieceNo, ReaderId};
use std::alloc::Global;
use text_fields::LineFault;
use text_fields::buffer::Buffer;
use text_fields::field::{Broken, ContentType, Ending, SomeOctets, Spell, Told};
use text_fields::fields::Fields;

fn read_good(fields: &Fields<'_>) -> Result<Answer, TextFault>
    ensures { ReadsAnswer AnswerWord.Good fields.now result }
{
    if fields.count() == 0 {
        return Ok(Answer::Good);
    }
    Err(TextFault::Form)
}

fn read_refused(alloc: Global, fields: &mut Fields<'_>) -> Result<Answer, TextFault>
    ensures { ReadsAnswer AnswerWord.Refused fields.old result }
{
    let refusal = read_refusal(alloc, fields)?;
    Ok(Answer::Refused(refusal))
}

fn read_planned(alloc: Global, fields: &mut Fields<'_>) -> Result<Answer, TextFault>
    ensures { ReadsAnswer AnswerWord.Planned fields.old result }
{
    let plan = read_plan(alloc, fields)?;
    Ok(Answer::Planned(plan))
}

fn read_broken(alloc: Global, fields: &mut Fields<'_>) -> Result<Answer, TextFault>
    ensures { ReadsAnswer AnswerWord.Broken fields.old result }
{
    let (b, status) = read_row::<(BlobName, Broken)>(alloc, fields)?;
    Ok(Answer::Broken(b, status.0))
}

fn read_taken(alloc: Global, fields: &mut Fields<'_>) -> Result<Answer, TextFault>
    ensures { ReadsAnswer AnswerWord.Taken fields.old result }
{
    let (seg,) = read_row::<(u32,)>(alloc, fields)?;
    Ok(Answer::Taken(seg))
}

fn read_stored(alloc: Global, fields: &mut Fields<'_>) -> Result<Answer, TextFault>
    ensures { ReadsAnswer AnswerWord.Stored fields.old result }
{
    let (f, p) = read_row::<(PageNo, PieceNo)>(alloc, fields)?;
    Ok(Answer::Stored(f, p))
}

fn read_store_failed(alloc: Global, fields: &mut Fields<'_>) -> Result<Answer, TextFault>
    ensures { ReadsAnswer AnswerWord.StoreFailed fields.old result }
{
    let (f,) = read_row::<(PageNo,)>(alloc, fields)?;
    Ok(Answer::StoreFailed(f))
}

fn read_told(alloc: Global, fields: &mut Fields<'_>) -> Result<Answer, TextFault>
    ensures { ReadsAnswer AnswerWord.Told fields.old result }
{
    let (b, size, kind, status) = read_row::<(BlobName, u64, ContentType, Told)>(alloc, fields)?;
    Ok(Answer::Told {
        b,
        size,
        kind: kind.0,
        status: status.0,
    })
}

fn read_revoked(fields: &Fields<'_>) -> Result<Answer, TextFault>
    ensures { ReadsAnswer AnswerWord.Revoked fields.now result }
{
    if fields.count() == 0 {
        return Ok(Answer::Revoked);
    }
    Err(TextFault::Form)
}

fn read_nothing(fields: &Fields<'_>) -> Result<Answer, TextFault>
    ensures { ReadsAnswer AnswerWord.Nothing fields.now result }
{
    if fields.count() == 0 {
        return Ok(Answer::Nothing);
    }
    Err(TextFault::Form)
}

fn read_opened(alloc: Global, fields: &mut Fields<'_>) -> Result<Answer, TextFault>
    ensures { ReadsAnswer AnswerWord.Opened fields.old result }
{
    let (q, size, kind) = read_row::<(ReaderId, u64, ContentType)>(alloc, fields)?;
    Ok(Answer::Opened {
        q,
        size,
        kind: kind.0,
    })
}

fn read_given(alloc: Global, fields: &mut Fields<'_>) -> Result<Answer, TextFault>
    ensures { ReadsAnswer AnswerWord.Given fields.old result }
{
    let (q, octets) = read_row::<(ReaderId, SomeOctets)>(alloc, fields)?;
    Ok(Answer::Given(q, octets.0))
}

fn read_wait(alloc: Global, fields: &mut Fields<'_>) -> Result<Answer, TextFault>
    ensures { ReadsAnswer AnswerWord.Wait fields.old result }
{
    let (q,) = read_row::<(ReaderId,)>(alloc, fields)?;
    Ok(Answer::Wait(q))
}

fn read_ended(alloc: Global, fields: &mut Fields<'_>) -> Result<Answer, TextFault>
    ensures { ReadsAnswer AnswerWord.Ended fields.old result }
{
    let (q, status) = read_row::<(ReaderId, Ending)>(alloc, fields)?;
    Ok(Answer::Ended(q, status.0))
}

fn read_file_changed(alloc: Global, fields: &mut Fields<'_>) -> Result<Answer, TextFault>
    ensures { ReadsAnswer AnswerWord.FileChanged fields.old result }
{
    let (q, file) = read_row::<(ReaderId, FileName)>(alloc, fields)?;
    Ok(Answer::FileChanged(q, file))
}

fn read_page_fault(alloc: Global, fields: &mut Fields<'_>) -> Result<Answer, TextFault>
    ensures { ReadsAnswer AnswerWord.PageFault fields.old result }
{
    let (q, f) = read_row::<(ReaderId, PageNo)>(alloc, fields)?;
    Ok(Answer::PageFault(q, f))
}

fn read_handle_failed(alloc: Global, fields: &mut Fields<'_>) -> Result<Answer, TextFault>
    ensures { ReadsAnswer AnswerWord.HandleFailed fields.old result }
{
    let (q, k) = read_row::<(ReaderId, u32)>(alloc, fields)?;
    Ok(Answer::HandleFailed(q, k))
}

fn read_paged(alloc: Global, fields: &mut Fields<'_>) -> Result<Answer, TextFault>
    ensures { ReadsAnswer AnswerWord.Paged fields.old result }
{
    let (j, f, pieces) = read_paged_pieces(alloc, fields)?;
    Ok(Answer::Paged(j, f, pieces))
}

fn read_empty(alloc: Global, fields: &mut Fields<'_>) -> Result<Answer, TextFault>
    ensures { ReadsAnswer AnswerWord.Empty fields.old result }
{
    let (j,) = read_row::<(JobNo,)>(alloc, fields)?;
    Ok(Answer::Empty(j))
}

fn read_page_failed(alloc: Global, fields: &mut Fields<'_>) -> Result<Answer, TextFault>
    ensures { ReadsAnswer AnswerWord.PageFailed fields.old result }
{
    let (j, f) = read_row::<(JobNo, PageNo)>(alloc, fields)?;
    Ok(Answer::PageFailed(j, f))
}

fn read_moved(alloc: Global, fields: &mut Fields<'_>) -> Result<Answer, TextFault>
    ensures { ReadsAnswer AnswerWord.Moved fields.old result }
{
    let (j, f, pieces) = read_paged_pieces(alloc, fields)?;
    Ok(Answer::Moved(j, f, pieces))
}

fn read_move_failed(alloc: Global, fields: &mut Fields<'_>) -> Result<Answer, TextFault>
    ensures { ReadsAnswer AnswerWord.MoveFailed fields.old result }
{
    let (j, f) = read_row::<(JobNo, PageNo)>(alloc, fields)?;
    Ok(Answer::MoveFailed(j, f))
}

fn read_move_unread(alloc: Global, fields: &mut Fields<'_>) -> Result<Answer, TextFault>
    ensures { ReadsAnswer AnswerWord.MoveUnread fields.old result }
{
    let (j, f) = read_row::<(JobNo, PageNo)>(alloc, fields)?;
    Ok(Answer::MoveUnread(j, f))
}

fn read_lost_job(alloc: Global, fields: &mut Fields<'_>) -> Result<Answer, TextFault>
    ensures { ReadsAnswer AnswerWord.LostJob fields.old result }
{
    let (j,) = read_row::<(JobNo,)>(alloc, fields)?;
    Ok(Answer::LostJob(j))
}

fn read_held(alloc: Global, fields: &mut Fields<'_>) -> Result<Answer, TextFault>
    ensures { ReadsAnswer AnswerWord.Held fields.old result }
{
    let (blobs, urls, readers, waiting, paging) = read_row::<(u32, u32, u32, u32, bool)>(
        alloc, fields,
    )?;
    Ok(Answer::Held {
        blobs,
        urls,
        readers,
        waiting,
        paging,
    })
}

fn read_dropped(alloc: Global, fields: &mut Fields<'_>) -> Result<Answer, TextFault>
    ensures { ReadsAnswer AnswerWord.Dropped fields.old result }
{
    let (b,) = read_row::<(BlobName,)>(alloc, fields)?;
    Ok(Answer::Dropped(b))
}

fn read_done(alloc: Global, fields: &mut Fields<'_>) -> Result<Answer, TextFault>
    ensures { ReadsAnswer AnswerWord.Done fields.old result }
{
    let (b,) = read_row::<(BlobName,)>(alloc, fields)?;
    Ok(Answer::Done(b))
}

fn read_removed(alloc: Global, fields: &mut Fields<'_>) -> Result<Answer, TextFault>
    ensures { ReadsAnswer AnswerWord.Removed fields.old result }
{
    let (f,) = read_row::<(PageNo,)>(alloc, fields)?;
    Ok(Answer::Removed(f))
}

fn read_left(alloc: Global, fields: &mut Fields<'_>) -> Result<Answer, TextFault>
    ensures { ReadsAnswer AnswerWord.Left fields.old result }
{
    let (f,) = read_row::<(PageNo,)>(alloc, fields)?;
    Ok(Answer::Left(f))
}

fn read_granted(alloc: Global, fields: &mut Fields<'_>) -> Result<Answer, TextFault>
    ensures { ReadsAnswer AnswerWord.Granted fields.old result }
{
    let (b,) = read_row::<(BlobName,)>(alloc, fields)?;
    Ok(Answer::Granted(b))
}

fn read_job(alloc: Global, fields: &mut Fields<'_>) -> Result<Answer, TextFault>
    ensures { ReadsAnswer AnswerWord.Job fields.old result }
{
    let (j, pieces) = read_job_pieces(alloc, fields)?;
    Ok(Answer::Job(j, pieces))
}

fn read_compacting(alloc: Global, fields: &mut Fields<'_>) -> Result<Answer, TextFault>
    ensures { ReadsAnswer AnswerWord.Compacting fields.old result }
{
    let (j, f, pieces) = read_paged_pieces(alloc, fields)?;
    Ok(Answer::Compacting(j, f, pieces))
}

fn read_behind(
    alloc: Global,
    word: AnswerWord,
    fields: &mut Fields<'_>,
) -> Result<Answer, TextFault>
    ensures { ReadsAnswer word fields.old result }
{
    match word {
        AnswerWord::Good => read_good(fields),
        AnswerWord::Refused => read_refused(alloc, fields),
        AnswerWord::Planned => read_planned(alloc, fields),
        AnswerWord::Broken => read_broken(alloc, fields),
        AnswerWord::Taken => read_taken(alloc, fields),
        AnswerWord::Stored => read_stored(alloc, fields),
        AnswerWord::StoreFailed => read_store_failed(alloc, fields),
        AnswerWord::Told => read_told(alloc, fields),
        AnswerWord::Revoked => read_revoked(fields),
        AnswerWord::Nothing => read_nothing(fields),
        AnswerWord::Opened => read_opened(alloc, fields),
        AnswerWord::Given => read_given(alloc, fields),
        AnswerWord::Wait => read_wait(alloc, fields),
        AnswerWord::Ended => read_ended(alloc, fields),
        AnswerWord::FileChanged => read_file_changed(alloc, fields),
        AnswerWord::PageFault => read_page_fault(alloc, fields),
        AnswerWord::HandleFailed => read_handle_failed(alloc, fields),
        AnswerWord::Paged => read_paged(alloc, fields),
        AnswerWord::Empty => read_empty(alloc, fields),
        AnswerWord::PageFailed => read_page_failed(alloc, fields),
        AnswerWord::Moved => read_moved(alloc, fields),
        AnswerWord::MoveFailed => read_move_failed(alloc, fields),
        AnswerWord::MoveUnread => read_move_unread(alloc, fields),
        AnswerWord::LostJob => read_lost_job(alloc, fields),
        AnswerWord::Held => read_held(alloc, fields),
        AnswerWord::Dropped => read_dropped(alloc, fields),
        AnswerWord::Done => read_done(alloc, fields),
        AnswerWord::Removed => read_removed(alloc, fields),
        AnswerWord::Left => read_left(alloc, fields),
        AnswerWord::Granted => read_granted(alloc, fields),
        AnswerWord::Job => read_job(alloc, fields),
        AnswerWord::Compacting => read_compacting(alloc, fields),
    }
}

/// The answer that a line without its line feed spells.
pub fn read_answer(alloc: Global, line: &[u8]) -> Result<Answer, TextFault>
    ensures { ReadsAs (λ text. IsAnswer (split 32 text)) HasText answer_text line.now result }
{
    let mut fields = Fields::new(b' ', line);
    let Some(first) = fields.next() else {
        return Err(TextFault::Form);
    };
    match AnswerWord::from_text(first) {
        Some(word) => read_behind(alloc, word, &mut fields),
        None => Err(TextFault::Form),
    }
}
