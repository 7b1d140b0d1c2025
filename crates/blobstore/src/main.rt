//! The program: a session on standard input, its transcript on standard output.
#![tactic(auto)]

mod last_bytes;

use crate::last_bytes::LastBytes;
use blob_source::{ReadSource, Sink, WriteSink};
use replay_run::run;
use std::process::ExitCode;
use std::{env, io};

// The statuses but 0, which says that the `end` line was read.
const OTHER_WORDS: u8 = 1;

const REFUSED: u8 = 2;

const NO_MEMORY: u8 = 3;

const SOURCE_FAILED: u8 = 4;

const SINK_FAILED: u8 = 5;

const STOPPED: u8 = 6;

/// The words behind the program's name.
fn words(rt: &HostRuntime) -> io::Result<Vec<String>> {
    let mut words = Vec::new(rt.alloc());
    for word in env::args(rt)?.skip(1) {
        words.push(word)?;
    }
    Ok(words)
}

fn run_session<K: Sink>(rt: &HostRuntime, out: &mut K) -> u8 {
    let words = match words(rt) {
        Ok(words) => words,
        Err(error) => {
            if error.kind() == io::ErrorKind::OutOfMemory {
                return NO_MEMORY;
            }
            return OTHER_WORDS;
        }
    };
    let mut session = ReadSource::new(rt.stdin());
    run(rt.alloc(), words.as_slice(), &mut session, out)
}

/// Says in words how a replay ended, where not by the `end` line.
fn tell<K: Sink>(rt: &HostRuntime, status: u8, out: &LastBytes<K>) -> io::Result<()> {
    match status {
        OTHER_WORDS => eprintln!(rt; "usage: blobstore replay"),
        REFUSED => {
            let (line, word) = out.refusal().unwrap_or_default();
            eprintln!(rt; "replay: line {line} is refused: {word}")
        }
        NO_MEMORY => eprintln!(rt; "replay: out of memory"),
        SOURCE_FAILED => eprintln!(rt; "replay: the session can't be read"),
        SINK_FAILED => eprintln!(rt; "replay: the transcript can't be written"),
        STOPPED => eprintln!(rt; "replay: the session has no `end` line"),
        _ => Ok(()),
    }
}

fn main(rt: HostRuntime) -> ExitCode {
    let mut out = LastBytes::new(WriteSink::new(rt.stdout()));
    let status = run_session(&rt, &mut out);
    // There is nowhere left to say that this can't be written.
    let _told = tell(&rt, status, &out);
    ExitCode::from(status)
}
