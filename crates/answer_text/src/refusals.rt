//! The refusals of a transcript, read and put.

ghost use Rattle.std.specs.Prelude.{◌≡◌, [], ◌∷◌};
ghost use Rattle.text_fields.specs.Fields.{fields};
ghost use Rattle.text_fields.specs.Output.{IsPutTo};
ghost use Rattle.text_fields.specs.Counted.{counted_fields};
ghost use Rattle.answer_text.specs.Fault.{IsRefusal, ReadsAs};
ghost use Rattle.answer_text.specs.Reading.{ReadsRefusal};
ghost use Rattle.answer_text.specs.Text.{refusal_word_of, refusal_fields, RefusalHasText};
ghost use Rattle.answer_text.specs.Word.{refusal_text};

use crate::refusal::Refusal;
use crate::refusal_word::RefusalWord;
use crate::rows::read_row;
use crate::text_fault::TextFault;
use blob_source::Sink;
use blob_words::{BlobName, Counted, Failed, JobNo, ReaderId, RendererId};
use std::alloc::Global;
use text_fields::buffer::Buffer;
use text_fields::counted::{counted_of, limit_text};
use text_fields::field::Spell;
use text_fields::fields::Fields;
use text_fields::keyword::Keyword;
use text_fields::literal::Literal;
use text_fields::values::Values;

fn read_no_renderer(alloc: Global, fields: &mut Fields<'_>) -> Result<Refusal, TextFault>
    ensures { ReadsRefusal RefusalWord.NoRenderer fields.old result }
{
    let (r,) = read_row::<(RendererId,)>(alloc, fields)?;
    Ok(Refusal::NoRenderer(r))
}

fn read_renderer_used(alloc: Global, fields: &mut Fields<'_>) -> Result<Refusal, TextFault>
    ensures { ReadsRefusal RefusalWord.RendererUsed fields.old result }
{
    let (r,) = read_row::<(RendererId,)>(alloc, fields)?;
    Ok(Refusal::RendererUsed(r))
}

fn read_name_used(alloc: Global, fields: &mut Fields<'_>) -> Result<Refusal, TextFault>
    ensures { ReadsRefusal RefusalWord.NameUsed fields.old result }
{
    let (b,) = read_row::<(BlobName,)>(alloc, fields)?;
    Ok(Refusal::NameUsed(b))
}

fn read_no_handle(alloc: Global, fields: &mut Fields<'_>) -> Result<Refusal, TextFault>
    ensures { ReadsRefusal RefusalWord.NoHandle fields.old result }
{
    let (r, b) = read_row::<(RendererId, BlobName)>(alloc, fields)?;
    Ok(Refusal::NoHandle(r, b))
}

fn read_no_such_handle(alloc: Global, fields: &mut Fields<'_>) -> Result<Refusal, TextFault>
    ensures { ReadsRefusal RefusalWord.NoSuchHandle fields.old result }
{
    let (k,) = read_row::<(u32,)>(alloc, fields)?;
    Ok(Refusal::NoSuchHandle(k))
}

fn read_handle_taken(alloc: Global, fields: &mut Fields<'_>) -> Result<Refusal, TextFault>
    ensures { ReadsRefusal RefusalWord.HandleTaken fields.old result }
{
    let (k,) = read_row::<(u32,)>(alloc, fields)?;
    Ok(Refusal::HandleTaken(k))
}

fn read_no_transport(alloc: Global, fields: &mut Fields<'_>) -> Result<Refusal, TextFault>
    ensures { ReadsRefusal RefusalWord.NoTransport fields.old result }
{
    let (b,) = read_row::<(BlobName,)>(alloc, fields)?;
    Ok(Refusal::NoTransport(b))
}

fn read_bad_segment(alloc: Global, fields: &mut Fields<'_>) -> Result<Refusal, TextFault>
    ensures { ReadsRefusal RefusalWord.BadSegment fields.old result }
{
    let (n,) = read_row::<(u32,)>(alloc, fields)?;
    Ok(Refusal::BadSegment(n))
}

fn read_segment_taken(alloc: Global, fields: &mut Fields<'_>) -> Result<Refusal, TextFault>
    ensures { ReadsRefusal RefusalWord.SegmentTaken fields.old result }
{
    let (n,) = read_row::<(u32,)>(alloc, fields)?;
    Ok(Refusal::SegmentTaken(n))
}

fn read_segment_length(alloc: Global, fields: &mut Fields<'_>) -> Result<Refusal, TextFault>
    ensures { ReadsRefusal RefusalWord.SegmentLength fields.old result }
{
    let (n,) = read_row::<(u64,)>(alloc, fields)?;
    Ok(Refusal::SegmentLength(n))
}

fn read_reader_used(alloc: Global, fields: &mut Fields<'_>) -> Result<Refusal, TextFault>
    ensures { ReadsRefusal RefusalWord.ReaderUsed fields.old result }
{
    let (q,) = read_row::<(ReaderId,)>(alloc, fields)?;
    Ok(Refusal::ReaderUsed(q))
}

fn read_no_reader(alloc: Global, fields: &mut Fields<'_>) -> Result<Refusal, TextFault>
    ensures { ReadsRefusal RefusalWord.NoReader fields.old result }
{
    let (q,) = read_row::<(ReaderId,)>(alloc, fields)?;
    Ok(Refusal::NoReader(q))
}

fn read_range(alloc: Global, fields: &mut Fields<'_>) -> Result<Refusal, TextFault>
    ensures { ReadsRefusal RefusalWord.Range fields.old result }
{
    let (size,) = read_row::<(u64,)>(alloc, fields)?;
    Ok(Refusal::Range(size))
}

fn read_url_form(fields: &Fields<'_>) -> Result<Refusal, TextFault>
    ensures { ReadsRefusal RefusalWord.UrlForm fields.now result }
{
    if fields.count() == 0 {
        return Ok(Refusal::UrlForm);
    }
    Err(TextFault::Form)
}

fn read_url_taken(fields: &Fields<'_>) -> Result<Refusal, TextFault>
    ensures { ReadsRefusal RefusalWord.UrlTaken fields.now result }
{
    if fields.count() == 0 {
        return Ok(Refusal::UrlTaken);
    }
    Err(TextFault::Form)
}

fn read_no_url(fields: &Fields<'_>) -> Result<Refusal, TextFault>
    ensures { ReadsRefusal RefusalWord.NoUrl fields.now result }
{
    if fields.count() == 0 {
        return Ok(Refusal::NoUrl);
    }
    Err(TextFault::Form)
}

fn read_no_job(alloc: Global, fields: &mut Fields<'_>) -> Result<Refusal, TextFault>
    ensures { ReadsRefusal RefusalWord.NoJob fields.old result }
{
    let (j,) = read_row::<(JobNo,)>(alloc, fields)?;
    Ok(Refusal::NoJob(j))
}

fn read_stale_stamp(alloc: Global, fields: &mut Fields<'_>) -> Result<Refusal, TextFault>
    ensures { ReadsRefusal RefusalWord.StaleStamp fields.old result }
{
    let (last,) = read_row::<(u64,)>(alloc, fields)?;
    Ok(Refusal::StaleStamp(last))
}

fn read_no_file(fields: &Fields<'_>) -> Result<Refusal, TextFault>
    ensures { ReadsRefusal RefusalWord.NoFile fields.now result }
{
    if fields.count() == 0 {
        return Ok(Refusal::NoFile);
    }
    Err(TextFault::Form)
}

fn read_limits_again(fields: &Fields<'_>) -> Result<Refusal, TextFault>
    ensures { ReadsRefusal RefusalWord.LimitsAgain fields.now result }
{
    if fields.count() == 0 {
        return Ok(Refusal::LimitsAgain);
    }
    Err(TextFault::Form)
}

fn read_too_many(fields: &mut Fields<'_>) -> Result<Refusal, TextFault>
    ensures { ReadsRefusal RefusalWord.TooMany fields.old result }
{
    let Some(word) = fields.next() else {
        return Err(TextFault::Form);
    };
    let Some(limit) = fields.next() else {
        return Err(TextFault::Form);
    };
    if fields.count() != 0 {
        return Err(TextFault::Form);
    }
    match counted_of(word, limit) {
        Some(counted) => Ok(Refusal::TooMany(counted)),
        None => Err(TextFault::Form),
    }
}

fn read_behind(
    alloc: Global,
    word: RefusalWord,
    fields: &mut Fields<'_>,
) -> Result<Refusal, TextFault>
    ensures { ReadsRefusal word fields.old result }
{
    match word {
        RefusalWord::NoRenderer => read_no_renderer(alloc, fields),
        RefusalWord::RendererUsed => read_renderer_used(alloc, fields),
        RefusalWord::NameUsed => read_name_used(alloc, fields),
        RefusalWord::NoHandle => read_no_handle(alloc, fields),
        RefusalWord::NoSuchHandle => read_no_such_handle(alloc, fields),
        RefusalWord::HandleTaken => read_handle_taken(alloc, fields),
        RefusalWord::NoTransport => read_no_transport(alloc, fields),
        RefusalWord::BadSegment => read_bad_segment(alloc, fields),
        RefusalWord::SegmentTaken => read_segment_taken(alloc, fields),
        RefusalWord::SegmentLength => read_segment_length(alloc, fields),
        RefusalWord::ReaderUsed => read_reader_used(alloc, fields),
        RefusalWord::NoReader => read_no_reader(alloc, fields),
        RefusalWord::Range => read_range(alloc, fields),
        RefusalWord::UrlForm => read_url_form(fields),
        RefusalWord::UrlTaken => read_url_taken(fields),
        RefusalWord::NoUrl => read_no_url(fields),
        RefusalWord::NoJob => read_no_job(alloc, fields),
        RefusalWord::StaleStamp => read_stale_stamp(alloc, fields),
        RefusalWord::NoFile => read_no_file(fields),
        RefusalWord::TooMany => read_too_many(fields),
        RefusalWord::LimitsAgain => read_limits_again(fields),
    }
}

/// The refusal that the fields spell.
pub fn read_refusal(alloc: Global, fields: &mut Fields<'_>) -> Result<Refusal, TextFault>
    ensures { ReadsAs IsRefusal RefusalHasText
        (λ refusal. refusal_text (refusal_word_of refusal) ∷ refusal_fields refusal)
        fields.old result }
{
    let Some(first) = fields.next() else {
        return Err(TextFault::Form);
    };
    match RefusalWord::from_text(first) {
        Some(word) => read_behind(alloc, word, fields),
        None => Err(TextFault::Form),
    }
}

fn word_of(refusal: &Refusal) -> RefusalWord
    ensures { result ≡ refusal_word_of refusal.now }
{
    match refusal {
        Refusal::NoRenderer(_) => RefusalWord::NoRenderer,
        Refusal::RendererUsed(_) => RefusalWord::RendererUsed,
        Refusal::NameUsed(_) => RefusalWord::NameUsed,
        Refusal::NoHandle(_, _) => RefusalWord::NoHandle,
        Refusal::NoSuchHandle(_) => RefusalWord::NoSuchHandle,
        Refusal::HandleTaken(_) => RefusalWord::HandleTaken,
        Refusal::NoTransport(_) => RefusalWord::NoTransport,
        Refusal::BadSegment(_) => RefusalWord::BadSegment,
        Refusal::SegmentTaken(_) => RefusalWord::SegmentTaken,
        Refusal::SegmentLength(_) => RefusalWord::SegmentLength,
        Refusal::ReaderUsed(_) => RefusalWord::ReaderUsed,
        Refusal::NoReader(_) => RefusalWord::NoReader,
        Refusal::Range(_) => RefusalWord::Range,
        Refusal::UrlForm => RefusalWord::UrlForm,
        Refusal::UrlTaken => RefusalWord::UrlTaken,
        Refusal::NoUrl => RefusalWord::NoUrl,
        Refusal::NoJob(_) => RefusalWord::NoJob,
        Refusal::StaleStamp(_) => RefusalWord::StaleStamp,
        Refusal::NoFile => RefusalWord::NoFile,
        Refusal::TooMany(_) => RefusalWord::TooMany,
        Refusal::LimitsAgain => RefusalWord::LimitsAgain,
    }
}

fn put_counted<K: Sink>(buffer: &mut Buffer, out: &mut K, counted: Counted) -> Result<(), Failed>
    ensures { IsPutTo K.Sink out.old out.new buffer.old buffer.new
        (fields 32 (counted_fields counted)) result }
{
    let word = Literal {
        text: counted.text(),
    };
    let limit = Literal {
        text: limit_text(counted),
    };
    (word, limit).put_all(buffer, out, b' ')
}

fn put_behind<K: Sink>(buffer: &mut Buffer, out: &mut K, refusal: &Refusal) -> Result<(), Failed>
    ensures { IsPutTo K.Sink out.old out.new buffer.old buffer.new
        (fields 32 (refusal_fields refusal.now)) result }
{
    match refusal {
        Refusal::NoRenderer(r) => (r,).put_all(buffer, out, b' '),
        Refusal::RendererUsed(r) => (r,).put_all(buffer, out, b' '),
        Refusal::NameUsed(b) => (b,).put_all(buffer, out, b' '),
        Refusal::NoHandle(r, b) => (r, b).put_all(buffer, out, b' '),
        Refusal::NoSuchHandle(k) => (k,).put_all(buffer, out, b' '),
        Refusal::HandleTaken(k) => (k,).put_all(buffer, out, b' '),
        Refusal::NoTransport(b) => (b,).put_all(buffer, out, b' '),
        Refusal::BadSegment(n) => (n,).put_all(buffer, out, b' '),
        Refusal::SegmentTaken(n) => (n,).put_all(buffer, out, b' '),
        Refusal::SegmentLength(n) => (n,).put_all(buffer, out, b' '),
        Refusal::ReaderUsed(q) => (q,).put_all(buffer, out, b' '),
        Refusal::NoReader(q) => (q,).put_all(buffer, out, b' '),
        Refusal::Range(size) => (size,).put_all(buffer, out, b' '),
        Refusal::UrlForm => Ok(()),
        Refusal::UrlTaken => Ok(()),
        Refusal::NoUrl => Ok(()),
        Refusal::NoJob(j) => (j,).put_all(buffer, out, b' '),
        Refusal::StaleStamp(last) => (last,).put_all(buffer, out, b' '),
        Refusal::NoFile => Ok(()),
        Refusal::TooMany(counted) => put_counted(buffer, out, *counted),
        Refusal::LimitsAgain => Ok(()),
    }
}

/// Puts the refusal's word and its details, each behind a space.
pub fn put_refusal<K: Sink>(
    buffer: &mut Buffer,
    out: &mut K,
    refusal: &Refusal,
) -> Result<(), Failed>
    ensures { IsPutTo K.Sink out.old out.new buffer.old buffer.new
        (fields 32 (refusal_text (refusal_word_of refusal.now)
        ∷ refusal_fields refusal.now)) result }
{
    match (
        Literal {
            text: word_of(refusal).text(),
        },
    )
        .put_all(buffer, out, b' ')
    {
        Ok(()) => put_behind(buffer, out, refusal),
        Err(Failed) => Err(Failed),
    }
}
