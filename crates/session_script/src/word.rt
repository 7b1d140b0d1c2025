//! The words that lines begin with.

ghost use Rattle.session_script.specs.Word.{word_text};
ghost use Rattle.text_fields.specs.Keyword.{IsWordOf};

use text_fields::keyword::{Keyword, find};

/// The first word of a line.
#[derive(Clone, Copy, Debug, PartialEq, Eq)]
pub enum Word {
    Limits,
    Limits2,
    Spawn,
    Die,
    File,
    Gone,
    Build,
    Slice,
    Segment,
    Pass,
    Drop,
    Stat,
    Url,
    Revoke,
    Read,
    Fetch,
    Step,
    Cancel,
    Disk,
    Lost,
    Count,
    Finish,
}

// All words.
const WORDS: [Word; 22] = [
    Word::Limits,
    Word::Limits2,
    Word::Spawn,
    Word::Die,
    Word::File,
    Word::Gone,
    Word::Build,
    Word::Slice,
    Word::Segment,
    Word::Pass,
    Word::Drop,
    Word::Stat,
    Word::Url,
    Word::Revoke,
    Word::Read,
    Word::Fetch,
    Word::Step,
    Word::Cancel,
    Word::Disk,
    Word::Lost,
    Word::Count,
    Word::Finish,
];

impl Keyword for Word {
    ghost text = { word_text };

    fn text(self) -> &'static [u8] {
        match self {
            Word::Limits => b"limits",
            Word::Limits2 => b"limits2",
            Word::Spawn => b"spawn",
            Word::Die => b"die",
            Word::File => b"file",
            Word::Gone => b"gone",
            Word::Build => b"build",
            Word::Slice => b"slice",
            Word::Segment => b"data",
            Word::Pass => b"pass",
            Word::Drop => b"drop",
            Word::Stat => b"stat",
            Word::Url => b"url",
            Word::Revoke => b"revoke",
            Word::Read => b"read",
            Word::Fetch => b"fetch",
            Word::Step => b"step",
            Word::Cancel => b"cancel",
            Word::Disk => b"disk",
            Word::Lost => b"lost",
            Word::Count => b"tally",
            Word::Finish => b"end",
        }
    }
}

impl Word {
    /// The word of this text, where there is one.
    pub fn from_text(text: &[u8]) -> Option<Word>
        ensures { IsWordOf word_text text.now result }
    {
        find(&WORDS, text)
    }
}
