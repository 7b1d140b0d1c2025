//! Lines of a session: read, printed and streamed.

use crate::numbers::number_and_rest;
use blob_source::WriteSink;
use blob_words::{Failed, Octets};
use session_script::{Event, LineFault, print_event, read_line, stream_event};
use std::alloc::Global;
use std::io;
use std::io::Write;

fn word_of(fault: LineFault) -> &'static str {
    match fault {
        LineFault::Word => "word",
        LineFault::Fields => "fields",
        LineFault::Number => "number",
        LineFault::Hex => "hex",
        LineFault::Name => "name",
        LineFault::Type => "type",
        LineFault::Limits => "limits",
        LineFault::Memory => "memory",
    }
}

// Whether the event has this line, printed and streamed.
fn has_line(alloc: Global, event: &Event, line: &[u8]) -> anyhow::Result<bool> {
    let mut printed = Octets::new(alloc);
    print_event(alloc, event, &mut printed)?;
    let mut streamed = Vec::new(alloc);
    stream_event(event, &mut WriteSink::new(&mut streamed))?;
    Ok(printed.as_slice() == line && streamed.as_slice() == line)
}

fn answer_word(alloc: Global, line: &[u8]) -> anyhow::Result<&'static str> {
    let event = match read_line(alloc, line) {
        Ok(event) => event,
        Err(fault) => return Ok(word_of(fault)),
    };
    if has_line(alloc, &event, line)? {
        return Ok("ok");
    }
    Ok("another line")
}

/// `line LINE`: the word of its fault, or `ok` where it is read to an event that has this line.
pub fn line(alloc: Global, line: &[u8]) -> anyhow::Result<String> {
    let word = answer_word(alloc, line)?;
    Ok(String::from_str(alloc, word)?)
}

// How wide the writes of a stream were, at most, and how many bytes came in all.
#[derive(Drop)]
struct Widths {
    widest: usize,
    total: usize,
}

impl Write for Widths {
    fn write(&mut self, buf: &[u8]) -> io::Result<usize> {
        self.widest = self.widest.max(buf.len());
        self.total = self.total.wrapping_add(buf.len());
        Ok(buf.len())
    }

    fn flush(&mut self) -> io::Result<()> {
        Ok(())
    }
}

/// `widths LINE`: the widest write of its event's stream, and all bytes.
pub fn stream_widths(alloc: Global, line: &[u8]) -> anyhow::Result<String> {
    let event = read_line(alloc, line)?;
    let mut writer = Widths {
        widest: 0,
        total: 0,
    };
    stream_event(&event, &mut WriteSink::new(&mut writer))?;
    let (widest, total) = (writer.widest, writer.total);
    Ok(format!(in alloc; "at most {widest} at once, {total} in all")?)
}

/// `room 10 LINE`: what a stream into so much room answers, and what it wrote.
pub fn room(alloc: Global, text: &[u8]) -> anyhow::Result<String> {
    let (room, line) = number_and_rest(text);
    let event = read_line(alloc, line)?;
    let mut place = vec![in alloc; b'.'; room]?;
    let streamed = stream_event(&event, &mut WriteSink::new(place.as_mut_slice()));
    let word = match streamed {
        Ok(()) => "ok",
        Err(Failed) => "failed",
    };
    let written = crate::escapes::shown(alloc, place.as_slice())?;
    Ok(format!(in alloc; "{word} {written}")?)
}
