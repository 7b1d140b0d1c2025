//! How lines that build are decided.
ghost use Rattle.store_laws.specs.DecidingLaws.{BuildsDecided};

/// What the parts of a store tell of a line that builds is what the history says: the plan of its
/// own bytes and the status with which it breaks.
pub fn builds_are_decided()
    ensures { BuildsDecided }
{}
