//! The lines of events, put and printed.

ghost use Rattle.std.specs.Prelude.{◌≡◌, ◌++◌, ◌≤◌, map, decimal, OnOk, OnErr};
ghost use Rattle.blob_source.specs.Faults.{Rose};
ghost use Rattle.text_fields.specs.Fields.{fields};
ghost use Rattle.session_script.specs.Line.{limit_numbers, word_of, event_fields, line_of};
ghost use Rattle.text_fields.specs.Output.{IsPutTo, IsStreamedTo};

use crate::event::{Event, Parts};
use crate::word::Word;
use blob_source::Sink;
use blob_words::{BlobName, Failed, Limits, NoMemory, Octets, RendererId};
use std::alloc::Global;
use text_fields::buffer::Buffer;
use text_fields::field::Spell;
use text_fields::keyword::Keyword;
use text_fields::put::put_each;
use text_fields::stream::{print, stream};
use text_fields::values::Values;

fn word_of(event: &Event) -> Word
    ensures { result ≡ word_of event.now }
{
    match event {
        Event::Limits(_) => Word::Limits,
        Event::Limits2(_) => Word::Limits2,
        Event::Spawn { .. } => Word::Spawn,
        Event::Die { .. } => Word::Die,
        Event::File { .. } => Word::File,
        Event::Gone { .. } => Word::Gone,
        Event::Build { .. } => Word::Build,
        Event::Slice { .. } => Word::Slice,
        Event::Segment { .. } => Word::Segment,
        Event::Pass { .. } => Word::Pass,
        Event::Drop { .. } => Word::Drop,
        Event::Stat { .. } => Word::Stat,
        Event::Url { .. } => Word::Url,
        Event::Revoke { .. } => Word::Revoke,
        Event::Read { .. } => Word::Read,
        Event::Fetch { .. } => Word::Fetch,
        Event::Step { .. } => Word::Step,
        Event::Cancel { .. } => Word::Cancel,
        Event::Disk { .. } => Word::Disk,
        Event::Lost { .. } => Word::Lost,
        Event::Count => Word::Count,
        Event::Finish => Word::Finish,
    }
}

fn put_limits<K: Sink>(buffer: &mut Buffer, out: &mut K, limits: &Limits) -> Result<(), Failed>
    ensures { IsPutTo K.Sink out.old out.new buffer.old buffer.new
        (fields 32 (map decimal (limit_numbers limits.now))) result }
{
    (
        limits.memory,
        limits.disk,
        limits.big,
        limits.inline_max,
        limits.segment,
        limits.page,
        limits.chunk,
    )
        .put_all(buffer, out, b' ')
}

fn put_build<K: Sink>(
    buffer: &mut Buffer,
    out: &mut K,
    r: &RendererId,
    b: &BlobName,
    kind: &Octets,
    parts: &Parts,
) -> Result<(), Failed>
    ensures { IsPutTo K.Sink out.old out.new buffer.old buffer.new
        (fields 32 (event_fields (Event.Build r.now b.now kind.now parts.now))) result }
{
    match (r, b, kind).put_all(buffer, out, b' ') {
        Ok(()) => put_each(buffer, out, b' ', parts.as_slice()),
        Err(Failed) => Err(Failed),
    }
}

fn put_own<K: Sink>(buffer: &mut Buffer, out: &mut K, event: &Event) -> Result<(), Failed>
    ensures { IsPutTo K.Sink out.old out.new buffer.old buffer.new
        (fields 32 (event_fields event.now)) result }
{
    match event {
        Event::Limits(limits) => put_limits(buffer, out, limits),
        Event::Limits2(limits) => put_limits(buffer, out, limits),
        Event::Spawn { r, origin } => (r, origin).put_all(buffer, out, b' '),
        Event::Die { r } => (r,).put_all(buffer, out, b' '),
        Event::File { name, stamp, bytes } => (name, stamp, bytes).put_all(buffer, out, b' '),
        Event::Gone { name } => (name,).put_all(buffer, out, b' '),
        Event::Slice {
            r,
            b,
            src,
            start,
            end,
            kind,
        } => (r, b, src, start, end, kind).put_all(buffer, out, b' '),
        Event::Segment { r, b, seg, bytes } => (r, b, seg, bytes).put_all(buffer, out, b' '),
        Event::Pass { r, to, b } => (r, to, b).put_all(buffer, out, b' '),
        Event::Drop { r, b } => (r, b).put_all(buffer, out, b' '),
        Event::Stat { r, b } => (r, b).put_all(buffer, out, b' '),
        Event::Url { r, b, text } => (r, b, text).put_all(buffer, out, b' '),
        Event::Revoke { r, text } => (r, text).put_all(buffer, out, b' '),
        Event::Read { r, q, b, off, len } => (r, q, b, off, len).put_all(buffer, out, b' '),
        Event::Fetch {
            r,
            q,
            text,
            off,
            len,
        } => (r, q, text, off, len).put_all(buffer, out, b' '),
        Event::Step { q } => (q,).put_all(buffer, out, b' '),
        Event::Cancel { r, q } => (r, q).put_all(buffer, out, b' '),
        Event::Disk { j } => (j,).put_all(buffer, out, b' '),
        Event::Lost { j } => (j,).put_all(buffer, out, b' '),
        Event::Build { r, b, kind, parts } => put_build(buffer, out, r, b, kind, parts),
        Event::Count => Ok(()),
        Event::Finish => Ok(()),
    }
}

impl Spell for Event {
    ghost use Rattle.session_script.specs.Line.{line_of};

    ghost spell = { line_of };

    fn put<K: Sink>(&self, buffer: &mut Buffer, out: &mut K) -> Result<(), Failed> {
        match buffer.put(out, word_of(self).text()) {
            Ok(()) => put_own(buffer, out, self),
            Err(Failed) => Err(Failed),
        }
    }
}

/// Writes the line of an event, without a line feed, in pieces of at most 4,096 bytes, and takes
/// no memory. After `Failed`, which comes only where the sink's count rose, a front of the line
/// was written that lacks some byte.
pub fn stream_event<K: Sink>(event: &Event, out: &mut K) -> Result<(), Failed>
    ensures { IsStreamedTo K.Sink out.old out.new (line_of event.now) result }
{
    stream(event, out)
}

/// Puts the line of an event at the end of the bytes, without a line feed. After want of memory
/// the bytes are as they were.
pub fn print_event(alloc: Global, event: &Event, out: &mut Octets) -> Result<(), NoMemory>
    ensures ok { OnOk result (out.new ≡ out.old ++ line_of event.now) }
    ensures err { OnErr result (out.new ≡ out.old) }
{
    print(alloc, event, out)
}
