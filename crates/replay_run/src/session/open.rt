ghost use Rattle.std.specs.Prelude.{◌≡◌, ◌≤◌, [], IfOk, MatchResult, OnOk, Err};
ghost use Rattle.std.specs.Io.KnownBytes.{Appends};
ghost use Rattle.blob_source.specs.Faults.{Rose};
ghost use Rattle.replay_run.specs.History.{start};
ghost use Rattle.replay_run.specs.Legal.{opening};
ghost use Rattle.answer_text.specs.Text.{group_text};
ghost use Rattle.replay_run.specs.Puts.{IsUnwritten};
ghost use Rattle.replay_run.specs.Stands.{Rests};

use crate::session_end::SessionEnd;
use crate::store::Store;
use answer_text::{Answer, Answers, Group, stream_group_through};
use blob_source::Sink;
use blob_words::{Failed, Limits, NoMemory, Tally};
use session_script::Event;
use std::alloc::Global;
use text_fields::buffer::Buffer;

/// The group of the line of the limits.
fn opening(alloc: Global, limits: Limits) -> Result<Group, NoMemory>
    ensures { IfOk result (λ group. group ≡ opening limits) }
{
    let mut answers = Answers::new(alloc);
    answers.push(Answer::Good)?;
    Ok(Group {
        event: Event::Limits(limits),
        answers,
        tally: Tally {
            pieces: 0,
            memory: 0,
            files: 0,
            disk: 0,
        },
    })
}

/// Opens the session of these limits: makes its store and writes the group of their line.
pub fn open_with<K: Sink>(
    alloc: Global,
    limits: Limits,
    buffer: &mut Buffer,
    out: &mut K,
) -> Result<Store, SessionEnd>
    requires { buffer.old ≡ [] }
    ensures opened { MatchResult result
        (λ store. Rests limits store start
        × Appends (K.held out.old) (K.held out.new) (group_text (opening limits)))
        (IsUnwritten (group_text (opening limits)) (K.held out.old) (K.held out.new)) }
    ensures cause { result ≡ Err SessionEnd.SinkFailed
        → Rose (K.faults out.old) (K.faults out.new) }
    ensures later { K.faults out.old ≤ K.faults out.new }
    ensures empty { OnOk result (buffer.new ≡ []) }
{
    let Ok(group) = opening(alloc, limits) else {
        return Err(SessionEnd::NoMemory);
    };
    match stream_group_through(&group, buffer, out) {
        Ok(()) => Ok(Store::new(alloc, limits)),
        Err(Failed) => Err(SessionEnd::SinkFailed),
    }
}
