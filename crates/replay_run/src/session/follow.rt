ghost use Rattle.std.specs.Prelude.{◌≡◌, ◌≤◌, []};
ghost use Rattle.std.specs.Io.KnownBytes.{prepend_known};
ghost use Rattle.blob_words.specs.declared.limits.Limits.{Limits};
ghost use Rattle.blob_source.specs.declared.line_step.LineStep.TheVariants as steps;
ghost use Rattle.replay_run.specs.History.{start};
ghost use Rattle.replay_run.specs.Stands.{Rests};
ghost use Rattle.replay_run.specs.Turns.{AreTaken};

use crate::session::line::{MAX_LINES, past_lines, take_turn};
use crate::session_end::SessionEnd;
use crate::store::Store;
use crate::turn::Turn;
use blob_source::{LineReader, Sink, Source};
use std::alloc::Global;
use text_fields::buffer::Buffer;

/// Takes the lines behind the first, up to the one that ends the session.
pub fn follow<S: Source, K: Sink>(
    alloc: Global,
    reader: &mut LineReader,
    store: &mut Store,
    session: &mut S,
    buffer: &mut Buffer,
    out: &mut K,
) -> SessionEnd
    requires { buffer.old ≡ [] }
    ensures taken { (l : Limits) → Rests l store.old start → reader.old.last ≡ steps.Line
        → AreTaken l (prepend_known reader.old.ahead (S.left session.old)) (K.held out.old)
        (K.held out.new)
        (S.faults session.old) (S.faults session.new) (K.faults out.old) (K.faults out.new) result }
    ensures source_later { S.faults session.old ≤ S.faults session.new }
    ensures sink_later { K.faults out.old ≤ K.faults out.new }
{
    for number in 2..=MAX_LINES {
        match take_turn(alloc, number, reader, store, session, buffer, out) {
            Turn::More => {}
            Turn::Over(ending) => return ending,
        }
    }
    past_lines(reader, session, out)
}
