//! The words that answers begin with.

ghost use Rattle.answer_text.specs.Word.{word_text};
ghost use Rattle.text_fields.specs.Keyword.{IsWordOf};

use text_fields::keyword::{Keyword, find};

/// The word that an answer begins with.
#[derive(Clone, Copy, Debug, PartialEq, Eq)]
pub enum AnswerWord {
    Good,
    Refused,
    Planned,
    Broken,
    Taken,
    Stored,
    StoreFailed,
    Told,
    Revoked,
    Nothing,
    Opened,
    Given,
    Wait,
    Ended,
    FileChanged,
    PageFault,
    HandleFailed,
    Paged,
    Empty,
    PageFailed,
    Moved,
    MoveFailed,
    MoveUnread,
    LostJob,
    Held,
    Dropped,
    Done,
    Removed,
    Left,
    Granted,
    Job,
    Compacting,
}

// All words.
const WORDS: [AnswerWord; 32] = [
    AnswerWord::Good,
    AnswerWord::Refused,
    AnswerWord::Planned,
    AnswerWord::Broken,
    AnswerWord::Taken,
    AnswerWord::Stored,
    AnswerWord::StoreFailed,
    AnswerWord::Told,
    AnswerWord::Revoked,
    AnswerWord::Nothing,
    AnswerWord::Opened,
    AnswerWord::Given,
    AnswerWord::Wait,
    AnswerWord::Ended,
    AnswerWord::FileChanged,
    AnswerWord::PageFault,
    AnswerWord::HandleFailed,
    AnswerWord::Paged,
    AnswerWord::Empty,
    AnswerWord::PageFailed,
    AnswerWord::Moved,
    AnswerWord::MoveFailed,
    AnswerWord::MoveUnread,
    AnswerWord::LostJob,
    AnswerWord::Held,
    AnswerWord::Dropped,
    AnswerWord::Done,
    AnswerWord::Removed,
    AnswerWord::Left,
    AnswerWord::Granted,
    AnswerWord::Job,
    AnswerWord::Compacting,
];

impl Keyword for AnswerWord {
    ghost text = { word_text };

    fn text(self) -> &'static [u8] {
        match self {
            AnswerWord::Good => b"ok",
            AnswerWord::Refused => b"refused",
            AnswerWord::Planned => b"plan",
            AnswerWord::Broken => b"broken",
            AnswerWord::Taken => b"taken",
            AnswerWord::Stored => b"stored",
            AnswerWord::StoreFailed => b"store-failed",
            AnswerWord::Told => b"status",
            AnswerWord::Revoked => b"revoked",
            AnswerWord::Nothing => b"nothing",
            AnswerWord::Opened => b"opened",
            AnswerWord::Given => b"bytes",
            AnswerWord::Wait => b"wait",
            AnswerWord::Ended => b"end",
            AnswerWord::FileChanged => b"file-changed",
            AnswerWord::PageFault => b"page-fault",
            AnswerWord::HandleFailed => b"handle-failed",
            AnswerWord::Paged => b"paged",
            AnswerWord::Empty => b"empty",
            AnswerWord::PageFailed => b"page-failed",
            AnswerWord::Moved => b"moved",
            AnswerWord::MoveFailed => b"move-failed",
            AnswerWord::MoveUnread => b"move-unread",
            AnswerWord::LostJob => b"lost",
            AnswerWord::Held => b"held",
            AnswerWord::Dropped => b"dropped",
            AnswerWord::Done => b"done",
            AnswerWord::Removed => b"removed",
            AnswerWord::Left => b"left",
            AnswerWord::Granted => b"granted",
            AnswerWord::Job => b"job",
            AnswerWord::Compacting => b"compact",
        }
    }
}

impl AnswerWord {
    /// The word of this text, where there is one.
    pub fn from_text(text: &[u8]) -> Option<AnswerWord>
        ensures { IsWordOf word_text text.now result }
    {
        find(&WORDS, text)
    }
}
