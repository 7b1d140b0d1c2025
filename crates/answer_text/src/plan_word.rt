//! The words of plans.

ghost use Rattle.answer_text.specs.Word.{plan_text};
ghost use Rattle.text_fields.specs.Keyword.{IsWordOf};

use text_fields::keyword::{Keyword, find};

/// The word of a plan.
#[derive(Clone, Copy, Debug, PartialEq, Eq)]
pub enum PlanWord {
    None,
    Inline,
    Shared,
    File,
}

// All words.
const PLANS: [PlanWord; 4] = [
    PlanWord::None,
    PlanWord::Inline,
    PlanWord::Shared,
    PlanWord::File,
];

impl Keyword for PlanWord {
    ghost text = { plan_text };

    fn text(self) -> &'static [u8] {
        match self {
            PlanWord::None => b"none",
            PlanWord::Inline => b"inline",
            PlanWord::Shared => b"shared",
            PlanWord::File => b"file",
        }
    }
}

impl PlanWord {
    /// The word of this text, where there is one.
    pub fn from_text(text: &[u8]) -> Option<PlanWord>
        ensures { IsWordOf plan_text text.now result }
    {
        find(&PLANS, text)
    }
}
