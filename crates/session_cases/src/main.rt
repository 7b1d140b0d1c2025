//! Cases of words, lines, groups, digits, sources, sinks and sessions. Each line of standard input
//! is a call and what it is given, which is printed behind what came of it. A line behind `|` is
//! kept for a call on all that was kept; a remark begins with `#`.
#![tactic(auto)]

mod digits;
mod escapes;
mod groups;
mod lines;
mod numbers;
mod objects;
mod sessions;
mod streams;
mod words;

use crate::escapes::bytes_of;
use blob_source::{LineReader, LineStep, ReadSource};
use blob_words::Octets;
use std::alloc::Global;
use std::str;

// The text that is kept, and the front of sessions.
#[derive(Drop)]
struct Kept {
    text: Octets,
    front: Octets,
}

// What came of a call on words, lines, groups, digits, sources or sinks.
fn of_text(alloc: Global, call: &str, text: &[u8]) -> anyhow::Result<String> {
    match call {
        "name" => words::name(alloc, text),
        "origin" => words::origin(alloc, text),
        "limits" => words::limits(alloc, text),
        "list" => words::list(alloc),
        "line" => lines::line(alloc, text),
        "widths" => lines::stream_widths(alloc, text),
        "room" => lines::room(alloc, text),
        "group" => groups::group(alloc, text),
        "answer" => groups::answer(alloc, text),
        "digits" => digits::digits(alloc),
        "others" => digits::others(alloc),
        "lines" => streams::lines(alloc, text),
        "fault" => streams::fault(alloc, text),
        "reader" => streams::reader(alloc, text),
        "sink" => streams::sink(alloc, text),
        "writers" => streams::writers(alloc, text),
        "readers" => streams::readers(alloc, text),
        _ => Ok(String::from_str(alloc, "no such call")?),
    }
}

// What came of a call.
fn answer(alloc: Global, kept: &Kept, call: &str, text: &str) -> anyhow::Result<String> {
    let bytes = bytes_of(alloc, text.as_bytes())?;
    let session = kept.text.as_slice();
    match call {
        "groups" => groups::groups(alloc, session),
        "with" => sessions::with(alloc, kept.front.as_slice(), bytes.as_slice()),
        "session" => sessions::session(alloc, session),
        "bytewise" => sessions::bytewise(alloc, session),
        "reads" => sessions::reads(alloc, session),
        "writes" => sessions::writes(alloc, session, bytes.as_slice()),
        "space" => sessions::space(alloc, session, bytes.as_slice()),
        "cuts" => sessions::cuts(alloc, session),
        "words" => sessions::words(alloc, session, text),
        _ => of_text(alloc, call, bytes.as_slice()),
    }
}

// Prints what came of a call, and the call.
fn show(rt: &HostRuntime, kept: &Kept, case: &str) -> anyhow::Result<()> {
    let (call, text) = case.split_once(' ').unwrap_or((case, ""));
    let answer = answer(rt.alloc(), kept, call, text)?;
    if answer.as_str().ends_with('\n') {
        println!(rt; "{case}:\n{answer}")?;
    } else {
        println!(rt; "{answer}: {case}")?;
    }
    Ok(())
}

// Takes a line of standard input.
fn take(rt: &HostRuntime, kept: &mut Kept, line: &[u8]) -> anyhow::Result<()> {
    if let Some(text) = line.strip_prefix(b"| ".as_slice()) {
        kept.text.extend_from_slice(text)?;
        kept.text.push(b'\n')?;
        return Ok(());
    }
    if line == b"new".as_slice() {
        kept.text.truncate(0);
        return Ok(());
    }
    if line == b"front".as_slice() {
        kept.front = Octets::from_slice(rt.alloc(), kept.text.as_slice())?;
        return Ok(());
    }
    let case = str::from_utf8(line)?;
    if case.is_empty() || case.starts_with('#') {
        println!(rt; "{case}")?;
        return Ok(());
    }
    show(rt, kept, case)
}

fn main(rt: HostRuntime) -> anyhow::Result<()> {
    let mut source = ReadSource::new(rt.stdin());
    let mut reader = LineReader::new(rt.alloc())?;
    let mut kept = Kept {
        text: Octets::new(rt.alloc()),
        front: Octets::new(rt.alloc()),
    };
    for _ in 0..u64::MAX {
        if reader.next_line(&mut source) != LineStep::Line {
            break;
        }
        take(&rt, &mut kept, reader.line())?;
    }
    Ok(())
}
