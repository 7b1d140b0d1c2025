//! Sources, the lines of a source, and sinks.

use crate::escapes::shown;
use crate::numbers::number_and_rest;
use crate::objects::{failing_at, sink_of, source_of};
use blob_source::{LineReader, LineStep, ReadSource, Sink, Source, WriteSink, put_all};
use blob_words::{Failed, Octets};
use std::alloc::Global;
use std::io;
use std::io::{ErrorKind, Read};

fn step_word(step: LineStep) -> &'static str {
    match step {
        LineStep::Line => "line",
        LineStep::End => "end",
        LineStep::Unended => "unended",
        LineStep::TooLong => "too long",
        LineStep::ReadFault => "fault",
    }
}

// The steps of a reader up to the first that gives no line, and the one behind it.
fn steps<S: Source>(alloc: Global, source: &mut S) -> anyhow::Result<String> {
    let mut reader = LineReader::new(alloc)?;
    let mut text = String::new(alloc);
    for _ in 0..8 {
        let step = reader.next_line(source);
        if step != LineStep::Line {
            let again = reader.next_line(source);
            text.push_str(step_word(step))?;
            text.push_str(", ")?;
            text.push_str(step_word(again))?;
            return Ok(text);
        }
        if reader.line().len() < 64 {
            text.push_str(shown(alloc, reader.line())?.as_str())?;
        }
        text.push_str(" line, ")?;
    }
    Ok(text)
}

/// `lines 4 TEXT`: the steps of a reader of lines over the text, of so many bytes a read; 0 for all
/// at once.
pub fn lines(alloc: Global, text: &[u8]) -> anyhow::Result<String> {
    let (most, text) = number_and_rest(text);
    let mut source = source_of(
        Octets::from_slice(alloc, text)?,
        failing_at(alloc, None)?,
        most,
    );
    steps(alloc, &mut source)
}

/// `fault 4 1 TEXT`: the same where one read fails, of the second number; and the steps of another
/// reader of lines over what is left.
pub fn fault(alloc: Global, text: &[u8]) -> anyhow::Result<String> {
    let (most, rest) = number_and_rest(text);
    let (read, text) = number_and_rest(rest);
    let failing = failing_at(alloc, Some(read as u64))?;
    let mut source = source_of(Octets::from_slice(alloc, text)?, failing, most);
    let first = steps(alloc, &mut source)?;
    let second = steps(alloc, &mut source)?;
    Ok(format!(in alloc; "{first}; then {second}")?)
}

/// `reader TEXT`: the steps of a reader of lines over a reader of std.
pub fn reader(alloc: Global, text: &[u8]) -> anyhow::Result<String> {
    steps(alloc, &mut ReadSource::new(text))
}

fn put_word<K: Sink>(sink: &mut K, bytes: &[u8]) -> &'static str {
    match put_all(sink, bytes) {
        Ok(()) => "ok",
        Err(Failed) => "failed",
    }
}

/// `sink 8 3 2 TEXT`: the bytes are put to a sink of so much room, that takes so many bytes a write
/// (0 for all at once) and fails at one write; then what is left of them, then nothing, then `!`.
pub fn sink(alloc: Global, text: &[u8]) -> anyhow::Result<String> {
    let (room, rest) = number_and_rest(text);
    let (most, rest) = number_and_rest(rest);
    let (write, bytes) = number_and_rest(rest);
    let mut sink = sink_of(alloc, room, failing_at(alloc, Some(write as u64))?, most)?;
    let first = put_word(&mut sink, bytes);
    let held = shown(alloc, sink.bytes())?;
    let (_, left) = bytes.split_at(sink.bytes().len().min(bytes.len()));
    let second = put_word(&mut sink, left);
    let none = put_word(&mut sink, b"");
    let more = put_word(&mut sink, b"!");
    let all = shown(alloc, sink.bytes())?;
    Ok(format!(in alloc; "{first} {held}, {second}, {none}, {more} {all}")?)
}

/// `writers TEXT`: what a vector, and room for two bytes, take of it as sinks.
pub fn writers(alloc: Global, text: &[u8]) -> anyhow::Result<String> {
    let mut held = Vec::new(alloc);
    let whole = put_word(&mut WriteSink::new(&mut held), text);
    let mut place = [b'.'; 2];
    let part = put_word(&mut WriteSink::new(place.as_mut_slice()), text);
    let held = shown(alloc, held.as_slice())?;
    let place = shown(alloc, place.as_slice())?;
    Ok(format!(in alloc; "{whole} {held}, {part} {place}")?)
}

#[derive(Drop)]
struct Broken;

impl Read for Broken {
    fn read(&mut self, _buf: &mut [u8]) -> io::Result<usize> {
        Err(io::Error::from(ErrorKind::Interrupted))
    }
}

// What a read of four bytes gives.
fn read_text<S: Source>(alloc: Global, source: &mut S) -> anyhow::Result<String> {
    let mut out = [b'.'; 4];
    match source.read(&mut out) {
        Ok(count) => {
            let bytes = shown(alloc, out.as_slice())?;
            Ok(format!(in alloc; "{count} {bytes}")?)
        }
        Err(Failed) => Ok(String::from_str(alloc, "failed")?),
    }
}

/// `readers TEXT`: two reads of four bytes of it through std's reader, and one of a broken reader.
pub fn readers(alloc: Global, text: &[u8]) -> anyhow::Result<String> {
    let mut source = ReadSource::new(text);
    let first = read_text(alloc, &mut source)?;
    let second = read_text(alloc, &mut source)?;
    let broken = read_text(alloc, &mut ReadSource::new(Broken))?;
    Ok(format!(in alloc; "{first}, {second}, {broken}")?)
}
