//! Laws: the first sessions' plans and pieces are those of the whole table of plans.
#![tactic(auto)]

ghost use Rattle.plan_laws.specs.Laws.{PlansAgree, PiecesAgree};

/// A build of embedded bytes alone that has a plan in the first sessions has the same in the whole
/// table, while page files are empty and nobody waits.
pub fn plans_agree()
    ensures { PlansAgree }
{}

/// The pieces of a build stand where the spans of its parts stand.
pub fn pieces_agree()
    ensures { PiecesAgree }
{}
