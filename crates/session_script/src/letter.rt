//! The letters that parts begin with.

ghost use Rattle.session_script.specs.Word.{letter_text};
ghost use Rattle.text_fields.specs.Keyword.{IsWordOf};

use text_fields::keyword::{Keyword, find};

/// The letter of a part.
#[derive(Clone, Copy, Debug, PartialEq, Eq)]
pub enum Letter {
    Embedded,
    Asked,
    FileRange,
    BlobRange,
    HandleRange,
}

// All letters.
const LETTERS: [Letter; 5] = [
    Letter::Embedded,
    Letter::Asked,
    Letter::FileRange,
    Letter::BlobRange,
    Letter::HandleRange,
];

impl Keyword for Letter {
    ghost text = { letter_text };

    fn text(self) -> &'static [u8] {
        match self {
            Letter::Embedded => b"b",
            Letter::Asked => b"n",
            Letter::FileRange => b"f",
            Letter::BlobRange => b"s",
            Letter::HandleRange => b"h",
        }
    }
}

impl Letter {
    /// The letter of this text, where there is one.
    pub fn from_text(text: &[u8]) -> Option<Letter>
        ensures { IsWordOf letter_text text.now result }
    {
        find(&LETTERS, text)
    }
}
