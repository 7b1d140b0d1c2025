//! Whether two words that answers have are one.
ghost use Rattle.std.specs.Prelude.{◌≡◌, ◌||◌, ◌&&◌, ℕ, List, bytes_eq};
ghost use Rattle.transcript_audit.specs.Tests.{same_status, same_plan, same_refusal, same_list};

use answer_text::Refusal;
use blob_words::{PieceNo, Plan, Status};

/// Two statuses.
#[tactic(auto, using(crate::proofs::Decided::status_decided))]
pub fn same_status(one: Status, other: Status) -> bool
    ensures { result ≡ same_status one other }
{
    one == other
}

/// Two plans.
#[tactic(auto, using(crate::proofs::Decided::plan_decided))]
pub fn same_plan(one: Plan, other: Plan) -> bool
    ensures { result ≡ same_plan one other }
{
    one == other
}

/// Two refusals.
#[tactic(auto, using(crate::proofs::Decided::refusal_decided))]
pub fn same_refusal(one: Refusal, other: Refusal) -> bool
    ensures { result ≡ same_refusal one other }
{
    one == other
}

/// Two texts.
pub fn is_same(one: &[u8], other: &[u8]) -> bool
    ensures { result ≡ bytes_eq one.now other.now }
{
    one == other
}

/// Two lists of pieces.
#[tactic(auto, using(crate::proofs::Decided::pieces_decided))]
pub fn same_pieces(one: &[PieceNo], other: &[PieceNo]) -> bool
    ensures { result ≡ same_list one.now other.now }
{
    one == other
}

/// Whether one of two tests passes.
pub fn either(one: bool, other: bool) -> bool
    ensures { result ≡ (one || other) }
{
    one || other
}

/// Whether two tests pass.
pub fn both(one: bool, other: bool) -> bool
    ensures { result ≡ (one && other) }
{
    one && other
}
