//! The lines of events, read.

ghost use Rattle.std.specs.Prelude.{◌≡◌, ◌≢◌, ◌≤◌, length, map, decimal, IfErr};
ghost use Rattle.session_script.specs.Fault.{IsLimitsFault, IsBuildFault, IsLineFault};
ghost use Rattle.session_script.specs.Line.{limit_numbers, event_fields, line_of, HasSpelling};
ghost use Rattle.session_script.specs.Reading.{ReadsEvent};
ghost use Rattle.text_fields.specs.Reading.{IsReading};
ghost use Rattle.session_script.specs.declared.event.Event.{Event as AnEvent};
ghost use Rattle.text_fields.specs.declared.line_fault.LineFault.TheVariants.{Memory};

use crate::event::Event;
use crate::part::read_parts;
use crate::word::Word;
use blob_words::bounds::MOST_PARTS;
use blob_words::{
    BlobName, FileName, JobNo, Limits, Octets, Origin, ReaderId, RendererId, UrlText,
};
use std::alloc::Global;
use text_fields::LineFault;
use text_fields::field::ContentType;
use text_fields::fields::Fields;
use text_fields::row::Row;

fn read_numbers(alloc: Global, fields: &mut Fields<'_>) -> Result<Limits, LineFault>
    ensures { IsReading IsLimitsFault (λ _. Unit {0})
        (λ limits. map decimal (limit_numbers limits)) fields.old result }
{
    let (memory, disk, big, inline_max, segment, page, chunk) = fields.row::<
        (u64, u64, u64, u64, u64, u64, u64),
    >(alloc)?;
    match Limits::new(memory, disk, big, inline_max, segment, page, chunk) {
        Ok(limits) => Ok(limits),
        Err(_) => Err(LineFault::Limits),
    }
}

fn read_limits(alloc: Global, fields: &mut Fields<'_>) -> Result<Event, LineFault>
    ensures { ReadsEvent Word.Limits fields.old result }
{
    let limits = read_numbers(alloc, fields)?;
    Ok(Event::Limits(limits))
}

fn read_limits2(alloc: Global, fields: &mut Fields<'_>) -> Result<Event, LineFault>
    ensures { ReadsEvent Word.Limits2 fields.old result }
{
    let limits = read_numbers(alloc, fields)?;
    Ok(Event::Limits2(limits))
}

fn read_build(alloc: Global, fields: &mut Fields<'_>) -> Result<Event, LineFault>
    ensures { ReadsEvent Word.Build fields.old result }
{
    let count = fields.count();
    if count < 3 || count > 3 + MOST_PARTS {
        return Err(LineFault::Fields);
    }
    let (r, b, kind) = match <(RendererId, BlobName, ContentType)>::read(alloc, fields) {
        Ok(values) => values,
        Err(fault) => return Err(fault),
    };
    match read_parts(alloc, fields) {
        Ok(parts) => Ok(Event::Build {
            r,
            b,
            kind: kind.0,
            parts,
        }),
        Err(fault) => Err(fault),
    }
}

fn read_spawn(alloc: Global, fields: &mut Fields<'_>) -> Result<Event, LineFault>
    ensures { ReadsEvent Word.Spawn fields.old result }
{
    let (r, origin) = fields.row::<(RendererId, Origin)>(alloc)?;
    Ok(Event::Spawn { r, origin })
}

fn read_die(alloc: Global, fields: &mut Fields<'_>) -> Result<Event, LineFault>
    ensures { ReadsEvent Word.Die fields.old result }
{
    let (r,) = fields.row::<(RendererId,)>(alloc)?;
    Ok(Event::Die { r })
}

fn read_file(alloc: Global, fields: &mut Fields<'_>) -> Result<Event, LineFault>
    ensures { ReadsEvent Word.File fields.old result }
{
    let (name, stamp, bytes) = fields.row::<(FileName, u64, Octets)>(alloc)?;
    Ok(Event::File { name, stamp, bytes })
}

fn read_gone(alloc: Global, fields: &mut Fields<'_>) -> Result<Event, LineFault>
    ensures { ReadsEvent Word.Gone fields.old result }
{
    let (name,) = fields.row::<(FileName,)>(alloc)?;
    Ok(Event::Gone { name })
}

fn read_slice(alloc: Global, fields: &mut Fields<'_>) -> Result<Event, LineFault>
    ensures { ReadsEvent Word.Slice fields.old result }
{
    let (r, b, src, start, end, kind) = match fields.row::<
        (
            RendererId,
            BlobName,
            BlobName,
            Option<i64>,
            Option<i64>,
            ContentType,
        ),
    >(alloc) {
        Ok(values) => values,
        Err(fault) => return Err(fault),
    };
    Ok(Event::Slice {
        r,
        b,
        src,
        start,
        end,
        kind: kind.0,
    })
}

fn read_segment(alloc: Global, fields: &mut Fields<'_>) -> Result<Event, LineFault>
    ensures { ReadsEvent Word.Segment fields.old result }
{
    let (r, b, seg, bytes) = fields.row::<(RendererId, BlobName, u32, Octets)>(alloc)?;
    Ok(Event::Segment { r, b, seg, bytes })
}

fn read_pass(alloc: Global, fields: &mut Fields<'_>) -> Result<Event, LineFault>
    ensures { ReadsEvent Word.Pass fields.old result }
{
    let (r, to, b) = fields.row::<(RendererId, RendererId, BlobName)>(alloc)?;
    Ok(Event::Pass { r, to, b })
}

fn read_drop(alloc: Global, fields: &mut Fields<'_>) -> Result<Event, LineFault>
    ensures { ReadsEvent Word.Drop fields.old result }
{
    let (r, b) = fields.row::<(RendererId, BlobName)>(alloc)?;
    Ok(Event::Drop { r, b })
}

fn read_stat(alloc: Global, fields: &mut Fields<'_>) -> Result<Event, LineFault>
    ensures { ReadsEvent Word.Stat fields.old result }
{
    let (r, b) = fields.row::<(RendererId, BlobName)>(alloc)?;
    Ok(Event::Stat { r, b })
}

fn read_url(alloc: Global, fields: &mut Fields<'_>) -> Result<Event, LineFault>
    ensures { ReadsEvent Word.Url fields.old result }
{
    let (r, b, text) = fields.row::<(RendererId, BlobName, UrlText)>(alloc)?;
    Ok(Event::Url { r, b, text })
}

fn read_revoke(alloc: Global, fields: &mut Fields<'_>) -> Result<Event, LineFault>
    ensures { ReadsEvent Word.Revoke fields.old result }
{
    let (r, text) = fields.row::<(RendererId, UrlText)>(alloc)?;
    Ok(Event::Revoke { r, text })
}

fn read_read(alloc: Global, fields: &mut Fields<'_>) -> Result<Event, LineFault>
    ensures { ReadsEvent Word.Read fields.old result }
{
    let (r, q, b, off, len) = fields.row::<(RendererId, ReaderId, BlobName, u64, Option<u64>)>(
        alloc,
    )?;
    Ok(Event::Read { r, q, b, off, len })
}

fn read_fetch(alloc: Global, fields: &mut Fields<'_>) -> Result<Event, LineFault>
    ensures { ReadsEvent Word.Fetch fields.old result }
{
    let (r, q, text, off, len) = fields.row::<(RendererId, ReaderId, UrlText, u64, Option<u64>)>(
        alloc,
    )?;
    Ok(Event::Fetch {
        r,
        q,
        text,
        off,
        len,
    })
}

fn read_step(alloc: Global, fields: &mut Fields<'_>) -> Result<Event, LineFault>
    ensures { ReadsEvent Word.Step fields.old result }
{
    let (q,) = fields.row::<(ReaderId,)>(alloc)?;
    Ok(Event::Step { q })
}

fn read_cancel(alloc: Global, fields: &mut Fields<'_>) -> Result<Event, LineFault>
    ensures { ReadsEvent Word.Cancel fields.old result }
{
    let (r, q) = fields.row::<(RendererId, ReaderId)>(alloc)?;
    Ok(Event::Cancel { r, q })
}

fn read_disk(alloc: Global, fields: &mut Fields<'_>) -> Result<Event, LineFault>
    ensures { ReadsEvent Word.Disk fields.old result }
{
    let (j,) = fields.row::<(JobNo,)>(alloc)?;
    Ok(Event::Disk { j })
}

fn read_lost(alloc: Global, fields: &mut Fields<'_>) -> Result<Event, LineFault>
    ensures { ReadsEvent Word.Lost fields.old result }
{
    let (j,) = fields.row::<(JobNo,)>(alloc)?;
    Ok(Event::Lost { j })
}

fn read_count(fields: &Fields<'_>) -> Result<Event, LineFault>
    ensures { ReadsEvent Word.Count fields.now result }
{
    if fields.count() == 0 {
        return Ok(Event::Count);
    }
    Err(LineFault::Fields)
}

fn read_finish(fields: &Fields<'_>) -> Result<Event, LineFault>
    ensures { ReadsEvent Word.Finish fields.now result }
{
    if fields.count() == 0 {
        return Ok(Event::Finish);
    }
    Err(LineFault::Fields)
}

fn read_own(alloc: Global, word: Word, fields: &mut Fields<'_>) -> Result<Event, LineFault>
    ensures { ReadsEvent word fields.old result }
{
    match word {
        Word::Limits => read_limits(alloc, fields),
        Word::Limits2 => read_limits2(alloc, fields),
        Word::Spawn => read_spawn(alloc, fields),
        Word::Die => read_die(alloc, fields),
        Word::File => read_file(alloc, fields),
        Word::Gone => read_gone(alloc, fields),
        Word::Build => read_build(alloc, fields),
        Word::Slice => read_slice(alloc, fields),
        Word::Segment => read_segment(alloc, fields),
        Word::Pass => read_pass(alloc, fields),
        Word::Drop => read_drop(alloc, fields),
        Word::Stat => read_stat(alloc, fields),
        Word::Url => read_url(alloc, fields),
        Word::Revoke => read_revoke(alloc, fields),
        Word::Read => read_read(alloc, fields),
        Word::Fetch => read_fetch(alloc, fields),
        Word::Step => read_step(alloc, fields),
        Word::Cancel => read_cancel(alloc, fields),
        Word::Disk => read_disk(alloc, fields),
        Word::Lost => read_lost(alloc, fields),
        Word::Count => read_count(fields),
        Word::Finish => read_finish(fields),
    }
}

/// The event of a line that has no line feed, or the one thing that is wrong with the line.
pub fn read_line(alloc: Global, line: &[u8]) -> Result<Event, LineFault>
    ensures read { IsReading IsLineFault HasSpelling line_of line.now result }
    ensures refused { IfErr result (λ fault. fault ≢ Memory → (event : AnEvent) → HasSpelling event
        → line.now ≢ line_of event) }
{
    let mut fields = Fields::new(b' ', line);
    let Some(first) = fields.next() else {
        return Err(LineFault::Word);
    };
    match Word::from_text(first) {
        Some(word) => read_own(alloc, word, &mut fields),
        None => Err(LineFault::Word),
    }
}
