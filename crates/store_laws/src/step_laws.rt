//! Steps of readers.
ghost use Rattle.store_laws.specs.StepLaws.{DoneAreUsed, PagesAreWritten, StepLeaves, StepTells};
ghost use Rattle.store_laws.specs.StepLaws.{StepUnread};

/// In a legal transcript each page file was written with the bytes of its pieces.
pub fn pages_are_written()
    ensures { PagesAreWritten }
{}

/// On a blob that is done a step gives the answer that the history allows.
pub fn step_tells()
    ensures { StepTells }
{}

/// On one that is unfinished it waits, and on a broken one the reader is at its end.
pub fn step_unread()
    ensures { StepUnread }
{}

/// The parts stand for the history with a step that waits, that closes its reader, or that gives
/// bytes.
pub fn step_leaves()
    ensures { StepLeaves }
{}

/// In a legal transcript each piece of a blob that is done was used.
pub fn done_are_used()
    ensures { DoneAreUsed }
{}
