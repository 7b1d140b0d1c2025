//! Laws: the entries of a registry that agree with a history end, live and go as the history's
//! blobs do.
#![tactic(auto)]

ghost use Rattle.registry_laws.specs.Laws.{EndingsAgree, LiveAgree, PassAgrees, SweepAgrees, SweepIsLeast};

/// What the sweep leaves are the live blobs, and the names that it drops are those that are owed.
pub fn live_agree()
    ensures { LiveAgree }
{}

/// The endings of a pass are those that are owed, in their order.
pub fn endings_agree()
    ensures { EndingsAgree }
{}

/// What a sweep leaves agrees with the history behind its drops.
pub fn sweep_agrees()
    ensures { SweepAgrees }
{}

/// What a pass made of the entries agrees with the history behind its endings.
pub fn pass_agrees()
    ensures { PassAgrees }
{}

/// What a sweep leaves is the least set with the rooted entries and the sources of its unfinished
/// ones.
pub fn sweep_is_least()
    ensures { SweepIsLeast }
{}
