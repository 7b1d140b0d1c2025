//! Sessions over objects in memory.

use crate::escapes::shown;
use crate::numbers::number_and_rest;
use crate::objects::{failing_at, sink_of, source_of};
use blob_source::Source;
use blob_words::{Failed, Octets};
use replay_run::run;
use std::alloc::{AllocError, Global};

// The room of a sink, in bytes, where a case says nothing of it.
const ROOM: usize = 1 << 14;

// How a session ended, and its transcript.
#[derive(Drop)]
struct Outcome {
    status: u8,
    transcript: Octets,
}

// How the objects of a session behave: the most bytes a read gives and a write takes, 0 for all at
// once, the room, and the read and the write that fail.
#[derive(Clone, Copy)]
struct Setting {
    most_read: usize,
    most_written: usize,
    room: usize,
    read: Option<u64>,
    write: Option<u64>,
}

// All at once, and nothing fails.
const AT_ONCE: Setting = Setting {
    most_read: 0,
    most_written: 0,
    room: ROOM,
    read: None,
    write: None,
};

fn one_word(alloc: Global, text: &str) -> Result<Vec<String>, AllocError> {
    let mut words = Vec::new(alloc);
    words.push(String::from_str(alloc, text)?)?;
    Ok(words)
}

fn replayed(alloc: Global, session: &[u8], setting: Setting) -> anyhow::Result<Outcome> {
    let bytes = Octets::from_slice(alloc, session)?;
    let mut source = source_of(bytes, failing_at(alloc, setting.read)?, setting.most_read);
    let failing = failing_at(alloc, setting.write)?;
    let mut sink = sink_of(alloc, setting.room, failing, setting.most_written)?;
    let words = one_word(alloc, "replay")?;
    let status = run(alloc, words.as_slice(), &mut source, &mut sink);
    let transcript = Octets::from_slice(alloc, sink.bytes())?;
    Ok(Outcome { status, transcript })
}

fn joined(alloc: Global, front: &[u8], text: &[u8]) -> anyhow::Result<Octets> {
    let mut session = Octets::from_slice(alloc, front)?;
    session.extend_from_slice(text)?;
    Ok(session)
}

// The status, and what is written behind the front's transcript.
fn behind(alloc: Global, outcome: &Outcome, front: &[u8]) -> Result<String, AllocError> {
    let status = outcome.status;
    match outcome.transcript.as_slice().strip_prefix(front) {
        Some(behind) => {
            let text = shown(alloc, behind)?;
            format!(in alloc; "{status} {text}")
        }
        None => format!(in alloc; "{status} behind another front"),
    }
}

/// `with TEXT`: the front's session goes on with the text; the status, and what is written behind
/// the front's transcript.
pub fn with(alloc: Global, front: &[u8], text: &[u8]) -> anyhow::Result<String> {
    let before = replayed(alloc, front, AT_ONCE)?;
    let session = joined(alloc, front, text)?;
    let outcome = replayed(alloc, session.as_slice(), AT_ONCE)?;
    Ok(behind(alloc, &outcome, before.transcript.as_slice())?)
}

// The bytes as characters.
fn plain(alloc: Global, bytes: &[u8]) -> Result<String, AllocError> {
    let mut text = String::new(alloc);
    for byte in bytes {
        text.push(char::from(*byte))?;
    }
    Ok(text)
}

/// `session`: the transcript of the kept session, and its status.
pub fn session(alloc: Global, session: &[u8]) -> anyhow::Result<String> {
    let outcome = replayed(alloc, session, AT_ONCE)?;
    let text = plain(alloc, outcome.transcript.as_slice())?;
    let status = outcome.status;
    Ok(format!(in alloc; "{text}status {status}\n")?)
}

// How many bytes of two texts are the same, from the front.
fn common(one: &[u8], other: &[u8]) -> usize {
    let mut count = 0usize;
    for (a, b) in one.iter().zip(other.iter()) {
        if a != b {
            return count;
        }
        count = count.wrapping_add(1);
    }
    count
}

// The status, how much of the whole transcript was written, and what else.
fn told(alloc: Global, outcome: &Outcome, whole: &[u8]) -> Result<String, AllocError> {
    let transcript = outcome.transcript.as_slice();
    let count = common(transcript, whole);
    let (_, behind) = transcript.split_at(count.min(transcript.len()));
    let status = outcome.status;
    if behind.is_empty() {
        return format!(in alloc; "status {status}, {count} bytes");
    }
    let behind = shown(alloc, behind)?;
    format!(in alloc; "status {status}, {count} bytes and {behind}")
}

// The same of a session whose objects behave so.
fn told_of(
    alloc: Global,
    session: &[u8],
    setting: Setting,
    whole: &Outcome,
) -> anyhow::Result<String> {
    let outcome = replayed(alloc, session, setting)?;
    Ok(told(alloc, &outcome, whole.transcript.as_slice())?)
}

// Outcomes, one after the other, and where each other one begins.
#[derive(Drop)]
struct Changes {
    text: String,
    last: String,
}

fn no_changes(alloc: Global) -> Changes {
    Changes {
        text: String::new(alloc),
        last: String::new(alloc),
    }
}

fn note(
    alloc: Global,
    changes: Changes,
    number: usize,
    told: String,
) -> Result<Changes, AllocError> {
    if told.as_str() == changes.last.as_str() {
        return Ok(changes);
    }
    let before = changes.text.as_str();
    let text = format!(in alloc; "{before}from {number}: {told}\n")?;
    Ok(Changes { text, last: told })
}

/// `bytewise`: how the kept session ends where each read gives one byte.
pub fn bytewise(alloc: Global, session: &[u8]) -> anyhow::Result<String> {
    let whole = replayed(alloc, session, AT_ONCE)?;
    let setting = Setting {
        most_read: 1,
        ..AT_ONCE
    };
    told_of(alloc, session, setting, &whole)
}

/// `reads`: how the kept session ends where each read gives one byte and one fails, each in turn.
pub fn reads(alloc: Global, session: &[u8]) -> anyhow::Result<String> {
    let whole = replayed(alloc, session, AT_ONCE)?;
    let mut changes = no_changes(alloc);
    for number in 0..session.len() {
        let setting = Setting {
            most_read: 1,
            read: Some(number as u64),
            ..AT_ONCE
        };
        let told = told_of(alloc, session, setting, &whole)?;
        changes = note(alloc, changes, number, told)?;
    }
    Ok(changes.text)
}

// The same where one of so many writes fails, each of at most so many bytes.
fn failing_writes(
    alloc: Global,
    session: &[u8],
    count: usize,
    most: usize,
) -> anyhow::Result<String> {
    let whole = replayed(alloc, session, AT_ONCE)?;
    let mut changes = no_changes(alloc);
    for number in 0..count {
        let setting = Setting {
            most_written: most,
            write: Some(number as u64),
            ..AT_ONCE
        };
        let told = told_of(alloc, session, setting, &whole)?;
        changes = note(alloc, changes, number, told)?;
    }
    Ok(changes.text)
}

/// `writes 8 5`: the same where one of so many writes fails, each of at most so many bytes; 0 for
/// all at once.
pub fn writes(alloc: Global, session: &[u8], text: &[u8]) -> anyhow::Result<String> {
    let (count, rest) = number_and_rest(text);
    let (most, _) = number_and_rest(rest);
    failing_writes(alloc, session, count, most)
}

/// `space 100 5`: the same with so much room, in writes of at most so many bytes.
pub fn space(alloc: Global, session: &[u8], text: &[u8]) -> anyhow::Result<String> {
    let (room, rest) = number_and_rest(text);
    let (most, _) = number_and_rest(rest);
    let whole = replayed(alloc, session, AT_ONCE)?;
    let setting = Setting {
        room,
        most_written: most,
        ..AT_ONCE
    };
    told_of(alloc, session, setting, &whole)
}

/// `cuts`: the same where the session ends behind so many bytes, each in turn.
pub fn cuts(alloc: Global, session: &[u8]) -> anyhow::Result<String> {
    let whole = replayed(alloc, session, AT_ONCE)?;
    let mut changes = no_changes(alloc);
    for len in 0..=session.len() {
        let (front, _) = session.split_at(len);
        let told = told_of(alloc, front, AT_ONCE, &whole)?;
        changes = note(alloc, changes, len, told)?;
    }
    Ok(changes.text)
}

// What the next read of four bytes gives.
fn next_four<S: Source>(alloc: Global, source: &mut S) -> Result<String, AllocError> {
    let mut first = [b'.'; 4];
    match source.read(&mut first) {
        Ok(_) => shown(alloc, first.as_slice()),
        Err(Failed) => String::from_str(alloc, "failed"),
    }
}

// The words of a call, between commas.
fn words_of(alloc: Global, text: &str) -> Result<Vec<String>, AllocError> {
    let mut words = Vec::new(alloc);
    if !text.is_empty() {
        for word in text.split(',') {
            words.push(String::from_str(alloc, word)?)?;
        }
    }
    Ok(words)
}

/// `words WORDS`: how a call with these words ends over the kept session, how much it wrote, and
/// what is read next.
pub fn words(alloc: Global, session: &[u8], text: &str) -> anyhow::Result<String> {
    let words = words_of(alloc, text)?;
    let mut source = source_of(
        Octets::from_slice(alloc, session)?,
        failing_at(alloc, None)?,
        0,
    );
    let mut sink = sink_of(alloc, ROOM, failing_at(alloc, None)?, 0)?;
    let status = run(alloc, words.as_slice(), &mut source, &mut sink);
    let count = sink.bytes().len();
    let next = next_four(alloc, &mut source)?;
    Ok(format!(in alloc; "status {status}, {count} bytes, then {next}")?)
}
