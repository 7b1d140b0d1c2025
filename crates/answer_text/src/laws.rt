//! Laws of the transcript's spelling.

ghost use Rattle.std.specs.Prelude.{◌≡◌, ◌++◌, ℕ, List};
ghost use Rattle.std.specs.List.{AllByRecursion};
ghost use Rattle.answer_text.specs.Text.{answer_text, group_text, groups_text, GroupHasText};
ghost use Rattle.answer_text.specs.Text.{HasText};
ghost use Rattle.answer_text.specs.declared.answer.Answer.{Answer as AnAnswer};
ghost use Rattle.answer_text.specs.declared.group.Group.{Group as AGroup};

/// No two answers have one text.
pub fn answers_are_injective()
    ensures { (a b : AnAnswer) → HasText a → HasText b → answer_text a ≡ answer_text b → a ≡ b }
{}

/// A text has at most one group in front: no group's text is a front of another's.
pub fn groups_are_apart()
    ensures { (g h : AGroup) (r s : List ℕ) → GroupHasText g → GroupHasText h → group_text g ++ r
        ≡ group_text h ++ s → (g ≡ h) × (r ≡ s) }
{}

/// A text spells at most one list of groups.
pub fn transcripts_are_injective()
    ensures { (gs hs : List AGroup) → AllByRecursion GroupHasText gs
        → AllByRecursion GroupHasText hs → groups_text gs ≡ groups_text hs → gs ≡ hs }
{}
