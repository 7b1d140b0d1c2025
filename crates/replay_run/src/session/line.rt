ghost use Rattle.std.specs.Prelude.{◌≡◌, ◌≤◌, ◌+◌, ◌^◌, ℕ, List, [], ◌∷◌, ◌++◌, Option, false};
ghost use Rattle.std.specs.Prelude.{length, IfOk, IfErr};
ghost use Rattle.std.specs.Io.KnownBytes.{Consumes, prepend_known};
ghost use Rattle.blob_words.specs.declared.bounds.TheConstants.{LONGEST_LINE, MOST_LINES};
ghost use Rattle.blob_words.specs.declared.limits.Limits.{Limits as SomeLimits};
ghost use Rattle.blob_source.specs.Lines.{has_line_feed};
ghost use Rattle.blob_source.specs.declared.line_step.LineStep.TheVariants as steps;
ghost use Rattle.replay_run.specs.History.{History};
ghost use Rattle.session_script.specs.declared.event.Event.TheVariants as events;
ghost use Rattle.session_script.specs.Line.{line_of};
ghost use Rattle.replay_run.specs.Reads.{IsLineOf, limits_of, states_limits};
ghost use Rattle.replay_run.specs.Stands.{Rests};
ghost use Rattle.replay_run.specs.Turns.{EndsAt, IsNone, IsOpening, IsOutFirst, IsOutPast, Turned};
ghost use Rattle.replay_run.specs.Turns.{TurnCause};
ghost use Rattle.replay_run.specs.Run.{HasCause};

use crate::reason::Reason;
use crate::session::put::{refuse, refuse_fault};
use crate::session_end::SessionEnd;
use crate::store::Store;
use crate::store::fault::ApplyFault;
use crate::turn::Turn;
use answer_text::stream_group_through;
use blob_source::{LineReader, LineStep, Sink, Source};
use blob_words::bounds::MOST_LINES;
use blob_words::{Failed, Limits};
use session_script::{Event, read_line};
use std::alloc::Global;
use text_fields::buffer::Buffer;

/// The greatest number of lines of a session.
pub const MAX_LINES: u32 = MOST_LINES as u32;

/// Reads, applies and answers a line.
fn answer_line<K: Sink>(
    alloc: Global,
    number: u32,
    line: &[u8],
    store: &mut Store,
    buffer: &mut Buffer,
    out: &mut K,
) -> Turn
    requires { buffer.old ≡ [] }
    ensures turned { (l : SomeLimits) (h : History) (unread unread' : Option (List ℕ))
        → Rests l store.old h → length line.now ≤ LONGEST_LINE → has_line_feed line.now ≡ false
        → Consumes unread unread' (line.now ++ 10 ∷ [])
        → Turned l h number unread unread' (K.held out.old) (K.held out.new) store.new result }
    ensures cause { (source : ℕ) → TurnCause result source source (K.faults out.old)
        (K.faults out.new) }
    ensures later { K.faults out.old ≤ K.faults out.new }
    ensures empty { result ≡ Turn.More → buffer.new ≡ [] }
{
    let event = match read_line(alloc, line) {
        Ok(event) => event,
        Err(fault) => return Turn::Over(refuse_fault(number, fault, out)),
    };
    let group = match store.apply(alloc, event) {
        Ok(group) => group,
        Err(ApplyFault::Unbuilt) => return Turn::Over(refuse(number, Reason::Unbuilt, out)),
        Err(ApplyFault::NoMemory) => return Turn::Over(SessionEnd::NoMemory),
    };
    match stream_group_through(&group, buffer, out) {
        Ok(()) => {}
        Err(Failed) => return Turn::Over(SessionEnd::SinkFailed),
    }
    if store.has_ended() {
        return Turn::Over(SessionEnd::Finished);
    }
    Turn::More
}

/// Takes the next line of the session.
pub fn take_turn<S: Source, K: Sink>(
    alloc: Global,
    number: u32,
    reader: &mut LineReader,
    store: &mut Store,
    session: &mut S,
    buffer: &mut Buffer,
    out: &mut K,
) -> Turn
    requires { buffer.old ≡ [] }
    ensures turned { (l : SomeLimits) (h : History) → Rests l store.old h
        → reader.old.last ≡ steps.Line
        → Turned l h number (prepend_known reader.old.ahead (S.left session.old))
        (prepend_known reader.new.ahead (S.left session.new)) (K.held out.old)
        (K.held out.new) store.new result }
    ensures ready { result ≡ Turn.More → reader.new.last ≡ steps.Line }
    ensures cause { reader.old.last ≡ steps.Line
        → TurnCause result (S.faults session.old) (S.faults session.new) (K.faults out.old)
        (K.faults out.new) }
    ensures source_later { S.faults session.old ≤ S.faults session.new }
    ensures sink_later { K.faults out.old ≤ K.faults out.new }
    ensures empty { result ≡ Turn.More → buffer.new ≡ [] }
{
    match reader.next_line(session) {
        LineStep::Line => answer_line(alloc, number, reader.line(), store, buffer, out),
        LineStep::End => Turn::Over(SessionEnd::Stopped),
        LineStep::Unended => Turn::Over(refuse(number, Reason::Unended, out)),
        LineStep::TooLong => Turn::Over(refuse(number, Reason::Long, out)),
        LineStep::ReadFault => Turn::Over(SessionEnd::SourceFailed),
    }
}

/// Whether the event is limits, of either version.
fn states_limits(event: &Event) -> bool
    ensures { result ≡ states_limits event.now }
{
    match event {
        Event::Limits(_) => true,
        Event::Limits2(_) => true,
        _ => false,
    }
}

/// The limits of a session of version 1, where the event is their line.
fn limits_of(event: Event) -> Option<Limits>
    ensures { result ≡ limits_of event }
{
    match event {
        Event::Limits(limits) => Some(limits),
        _ => None,
    }
}

/// Reads the limits from the first line.
fn read_limits<K: Sink>(alloc: Global, line: &[u8], out: &mut K) -> Result<Limits, SessionEnd>
    ensures limits { length line.now ≤ LONGEST_LINE
        → IfOk result (λ limits. IsLineOf (events.Limits limits)
        × (line.now ≡ line_of (events.Limits limits)) × (out.new ≡ out.old)) }
    ensures refused { (unread unread' : Option (List ℕ)) → length line.now ≤ LONGEST_LINE
        → has_line_feed line.now ≡ false → Consumes unread unread' (line.now ++ 10 ∷ [])
        → IfErr result (EndsAt IsOpening IsOutFirst 1 unread (K.held out.old) (K.held out.new)) }
    ensures cause { (source : ℕ) → IfErr result
        (λ ending. HasCause ending source source (K.faults out.old) (K.faults out.new)) }
    ensures later { K.faults out.old ≤ K.faults out.new }
{
    let event = match read_line(alloc, line) {
        Ok(event) => event,
        Err(fault) => return Err(refuse_fault(1, fault, out)),
    };
    if !states_limits(&event) {
        return Err(refuse(1, Reason::First, out));
    }
    match limits_of(event) {
        Some(limits) => Ok(limits),
        None => Err(refuse(1, Reason::Unbuilt, out)),
    }
}

/// Takes the first line of the session.
pub fn take_limits<S: Source, K: Sink>(
    alloc: Global,
    reader: &mut LineReader,
    session: &mut S,
    out: &mut K,
) -> Result<Limits, SessionEnd>
    ensures limits { reader.old.last ≡ steps.Line
        → IfOk result (λ limits. IsLineOf (events.Limits limits) × (out.new ≡ out.old)
        × (reader.new.last ≡ steps.Line)
        × Consumes (prepend_known reader.old.ahead (S.left session.old))
        (prepend_known reader.new.ahead (S.left session.new))
        (line_of (events.Limits limits) ++ 10 ∷ [])) }
    ensures refused { reader.old.last ≡ steps.Line
        → IfErr result (EndsAt IsOpening IsOutFirst 1
        (prepend_known reader.old.ahead (S.left session.old)) (K.held out.old) (K.held out.new)) }
    ensures cause { reader.old.last ≡ steps.Line
        → IfErr result (λ ending. HasCause ending (S.faults session.old) (S.faults session.new)
        (K.faults out.old) (K.faults out.new)) }
    ensures source_later { S.faults session.old ≤ S.faults session.new }
    ensures sink_later { K.faults out.old ≤ K.faults out.new }
{
    match reader.next_line(session) {
        LineStep::Line => read_limits(alloc, reader.line(), out),
        LineStep::End => Err(SessionEnd::Stopped),
        LineStep::Unended => Err(refuse(1, Reason::Unended, out)),
        LineStep::TooLong => Err(refuse(1, Reason::Long, out)),
        LineStep::ReadFault => Err(SessionEnd::SourceFailed),
    }
}

/// Looks behind the greatest number of lines.
pub fn past_lines<S: Source, K: Sink>(
    reader: &mut LineReader,
    session: &mut S,
    out: &mut K,
) -> SessionEnd
    ensures ends { reader.old.last ≡ steps.Line
        → EndsAt IsNone IsOutPast (MOST_LINES + 1)
        (prepend_known reader.old.ahead (S.left session.old))
        (K.held out.old) (K.held out.new) result }
    ensures cause { reader.old.last ≡ steps.Line
        → HasCause result (S.faults session.old) (S.faults session.new) (K.faults out.old)
        (K.faults out.new) }
    ensures source_later { S.faults session.old ≤ S.faults session.new }
    ensures sink_later { K.faults out.old ≤ K.faults out.new }
{
    match reader.next_line(session) {
        LineStep::Line => refuse(MAX_LINES + 1, Reason::Lines, out),
        LineStep::End => SessionEnd::Stopped,
        LineStep::Unended => refuse(MAX_LINES + 1, Reason::Lines, out),
        LineStep::TooLong => refuse(MAX_LINES + 1, Reason::Lines, out),
        LineStep::ReadFault => SessionEnd::SourceFailed,
    }
}
