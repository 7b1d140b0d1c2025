//! The groups of a transcript, put and printed.

ghost use Rattle.std.specs.Prelude.{◌≡◌, ◌++◌, [], codes, OnOk, OnErr};
ghost use Rattle.std.specs.List.{flat_map};
ghost use Rattle.text_fields.specs.Output.{IsPutTo, IsStreamedTo};
ghost use Rattle.answer_text.specs.Text.{answer_line, event_line, group_text, tally_line};
ghost use Rattle.answer_text.specs.Text.{tally_text};

use crate::answer::Answers;
use crate::group::Group;
use blob_source::Sink;
use blob_words::{Failed, NoMemory, Octets, Tally};
use session_script::Event;
use std::alloc::Global;
use text_fields::buffer::Buffer;
use text_fields::field::Spell;
use text_fields::put::{put_line, put_lines};
use text_fields::stream::{print, stream, stream_through};
use text_fields::values::Values;

fn put_event_line<K: Sink>(buffer: &mut Buffer, out: &mut K, event: &Event) -> Result<(), Failed>
    ensures { IsPutTo K.Sink out.old out.new buffer.old buffer.new (event_line event.now) result }
{
    match buffer.put(out, b"> ") {
        Ok(()) => put_line(buffer, out, event),
        Err(Failed) => Err(Failed),
    }
}

fn put_numbers<K: Sink>(buffer: &mut Buffer, out: &mut K, tally: &Tally) -> Result<(), Failed>
    ensures { IsPutTo K.Sink out.old out.new buffer.old buffer.new (tally_text tally.now) result }
{
    match buffer.put_byte(out, b'=') {
        Ok(()) => (tally.pieces, tally.memory, tally.files, tally.disk).put_all(buffer, out, b' '),
        Err(Failed) => Err(Failed),
    }
}

fn put_tally_line<K: Sink>(buffer: &mut Buffer, out: &mut K, tally: &Tally) -> Result<(), Failed>
    ensures { IsPutTo K.Sink out.old out.new buffer.old buffer.new (tally_line tally.now) result }
{
    match put_numbers(buffer, out, tally) {
        Ok(()) => buffer.put_byte(out, b'\n'),
        Err(Failed) => Err(Failed),
    }
}

fn put_behind<K: Sink>(
    buffer: &mut Buffer,
    out: &mut K,
    answers: &Answers,
    tally: &Tally,
) -> Result<(), Failed>
    ensures { IsPutTo K.Sink out.old out.new buffer.old buffer.new
        (flat_map answer_line answers.now ++ tally_line tally.now) result }
{
    match put_lines(buffer, out, answers.as_slice()) {
        Ok(()) => put_tally_line(buffer, out, tally),
        Err(Failed) => Err(Failed),
    }
}

impl Spell for Group {
    ghost use Rattle.answer_text.specs.Text.{group_text};

    ghost spell = { group_text };

    fn put<K: Sink>(&self, buffer: &mut Buffer, out: &mut K) -> Result<(), Failed> {
        match put_event_line(buffer, out, &self.event) {
            Ok(()) => put_behind(buffer, out, &self.answers, &self.tally),
            Err(Failed) => Err(Failed),
        }
    }
}

/// Writes the text of a group in pieces of at most 4,096 bytes, and takes no memory. After
/// `Failed`, which comes only where the sink's count rose, a front of the text was written that
/// lacks some byte.
pub fn stream_group<K: Sink>(group: &Group, out: &mut K) -> Result<(), Failed>
    ensures { IsStreamedTo K.Sink out.old out.new (group_text group.now) result }
{
    stream(group, out)
}

/// The same through a buffer in which nothing is ahead, so that many groups need one.
pub fn stream_group_through<K: Sink>(
    group: &Group,
    buffer: &mut Buffer,
    out: &mut K,
) -> Result<(), Failed>
    requires { buffer.old ≡ [] }
    ensures streamed { IsStreamedTo K.Sink out.old out.new (group_text group.now) result }
    ensures empty { OnOk result (buffer.new ≡ []) }
{
    stream_through(group, buffer, out)
}

/// Puts the text of a group at the end of the bytes. After want of memory they are as they were.
pub fn print_group(alloc: Global, group: &Group, out: &mut Octets) -> Result<(), NoMemory>
    ensures ok { OnOk result (out.new ≡ out.old ++ group_text group.now) }
    ensures err { OnErr result (out.new ≡ out.old) }
{
    print(alloc, group, out)
}
