ghost use Rattle.std.specs.Prelude.{◌≡◌};
ghost use Rattle.replay_run.specs.SessionEnd.{code_of};

use crate::reason::Reason;

/// How a replay ended.
#[derive(Clone, Copy, Debug, PartialEq, Eq)]
pub enum SessionEnd {
    /// The `end` line was read and its group written.
    Finished,
    /// The line of this number, from 1, was refused, and that was written.
    Refused(u32, Reason),
    /// There was no memory.
    NoMemory,
    /// The source failed.
    SourceFailed,
    /// The sink failed.
    SinkFailed,
    /// The source ended at a line's end.
    Stopped,
}

/// The exit status of a replay.
pub fn status_of(ending: SessionEnd) -> u8
    ensures { result ≡ code_of ending }
{
    match ending {
        SessionEnd::Finished => 0,
        SessionEnd::Refused(_, _) => 2,
        SessionEnd::NoMemory => 3,
        SessionEnd::SourceFailed => 4,
        SessionEnd::SinkFailed => 5,
        SessionEnd::Stopped => 6,
    }
}
