ghost use Rattle.std.specs.Prelude.{◌≡◌, ◌≢◌, ◌≤◌};
ghost use Rattle.blob_source.specs.Faults.{Rose};
ghost use Rattle.replay_run.specs.Puts.{IsFaultRefusal, IsRefusal};
ghost use Rattle.replay_run.specs.Reason.{reason_of};

use crate::reason::Reason;
use crate::refusal_line::RefusalLine;
use crate::session_end::SessionEnd;
use blob_source::Sink;
use blob_words::Failed;
use session_script::LineFault;
use text_fields::stream::stream;

/// Writes that the line of this number is refused, and why.
pub fn refuse<K: Sink>(number: u32, reason: Reason, out: &mut K) -> SessionEnd
    ensures refusal { IsRefusal number reason (K.held out.old) (K.held out.new) result }
    ensures cause { result ≡ SessionEnd.SinkFailed → Rose (K.faults out.old) (K.faults out.new) }
    ensures later { K.faults out.old ≤ K.faults out.new }
{
    match stream(&RefusalLine { number, reason }, out) {
        Ok(()) => SessionEnd::Refused(number, reason),
        Err(Failed) => SessionEnd::SinkFailed,
    }
}

/// Ends the session at a line of which no event was read.
pub fn refuse_fault<K: Sink>(number: u32, fault: LineFault, out: &mut K) -> SessionEnd
    ensures ends { IsFaultRefusal number (reason_of fault) (K.held out.old)
        (K.held out.new) result }
    ensures cause { result ≡ SessionEnd.SinkFailed → Rose (K.faults out.old) (K.faults out.new) }
    ensures no_source { result ≢ SessionEnd.SourceFailed }
    ensures later { K.faults out.old ≤ K.faults out.new }
{
    match Reason::of_fault(fault) {
        Some(reason) => refuse(number, reason, out),
        None => SessionEnd::NoMemory,
    }
}
