//! The top call: a session in, its transcript out.
pub mod follow;
pub mod line;
pub mod open;
pub mod put;

ghost use Rattle.std.specs.Prelude.{◌≡◌, ◌≤◌, true, false, map, string_bytes};
ghost use Rattle.replay_run.specs.SessionEnd.{code_of};
ghost use Rattle.replay_run.specs.Run.{AskReplay, Replays};

use crate::session::follow::follow;
use crate::session::line::take_limits;
use crate::session::open::open_with;
use crate::session_end::{SessionEnd, status_of};
use blob_source::{LineReader, Sink, Source};
use std::alloc::Global;
use text_fields::buffer::Buffer;

fn replay<S: Source, K: Sink>(alloc: Global, session: &mut S, out: &mut K) -> SessionEnd
    ensures replay { Replays S.Source K.Sink session.old session.new out.old out.new
        (code_of result) }
    ensures source_later { S.faults session.old ≤ S.faults session.new }
    ensures sink_later { K.faults out.old ≤ K.faults out.new }
{
    let Ok(mut reader) = LineReader::new(alloc) else {
        return SessionEnd::NoMemory;
    };
    let limits = match take_limits(alloc, &mut reader, session, out) {
        Ok(limits) => limits,
        Err(ending) => return ending,
    };
    let mut buffer = Buffer::new();
    let mut store = match open_with(alloc, limits, &mut buffer, out) {
        Ok(store) => store,
        Err(ending) => return ending,
    };
    follow(alloc, &mut reader, &mut store, session, &mut buffer, out)
}

/// Whether the words ask for a replay.
fn ask_replay(words: &[String]) -> bool
    ensures yes { result ≡ true → AskReplay (map string_bytes words.now) }
    ensures no { result ≡ false → AskReplay (map string_bytes words.now) → ⊥ }
{
    words.len() == 1 && words[0].as_str() == "replay"
}

/// Replays the session from `session`, where the words, without the program's name, are `replay`
/// alone: prints its transcript to `out` and gives the exit status.
///
/// 0: the `end` line was read and its group written. 1: other words, and nothing was read or
/// written. 2: a line was refused. 3: want of memory. 4: the source failed. 5: the sink failed.
/// 6: the source ended at a line's end, with no `end` line read.
pub fn run<S: Source, K: Sink>(alloc: Global, words: &[String], session: &mut S, out: &mut K) -> u8
    ensures replay { AskReplay (map string_bytes words.now) →
        Replays S.Source K.Sink session.old session.new out.old out.new result }
    ensures other_words { (AskReplay (map string_bytes words.now) → ⊥) → (result ≡ 1)
        × (session.new ≡ session.old) × (out.new ≡ out.old) }
    ensures source_later { S.faults session.old ≤ S.faults session.new }
    ensures sink_later { K.faults out.old ≤ K.faults out.new }
{
    if !ask_replay(words) {
        return 1;
    }
    status_of(replay(alloc, session, out))
}
