//! The words of refusals.

ghost use Rattle.answer_text.specs.Word.{refusal_text};
ghost use Rattle.text_fields.specs.Keyword.{IsWordOf};

use text_fields::keyword::{Keyword, find};

/// The word of a refusal.
#[derive(Clone, Copy, Debug, PartialEq, Eq)]
pub enum RefusalWord {
    NoRenderer,
    RendererUsed,
    NameUsed,
    NoHandle,
    NoSuchHandle,
    HandleTaken,
    NoTransport,
    BadSegment,
    SegmentTaken,
    SegmentLength,
    ReaderUsed,
    NoReader,
    Range,
    UrlForm,
    UrlTaken,
    NoUrl,
    NoJob,
    StaleStamp,
    NoFile,
    TooMany,
    LimitsAgain,
}

// All words.
const REFUSALS: [RefusalWord; 21] = [
    RefusalWord::NoRenderer,
    RefusalWord::RendererUsed,
    RefusalWord::NameUsed,
    RefusalWord::NoHandle,
    RefusalWord::NoSuchHandle,
    RefusalWord::HandleTaken,
    RefusalWord::NoTransport,
    RefusalWord::BadSegment,
    RefusalWord::SegmentTaken,
    RefusalWord::SegmentLength,
    RefusalWord::ReaderUsed,
    RefusalWord::NoReader,
    RefusalWord::Range,
    RefusalWord::UrlForm,
    RefusalWord::UrlTaken,
    RefusalWord::NoUrl,
    RefusalWord::NoJob,
    RefusalWord::StaleStamp,
    RefusalWord::NoFile,
    RefusalWord::TooMany,
    RefusalWord::LimitsAgain,
];

impl Keyword for RefusalWord {
    ghost text = { refusal_text };

    fn text(self) -> &'static [u8] {
        match self {
            RefusalWord::NoRenderer => b"no-renderer",
            RefusalWord::RendererUsed => b"renderer-used",
            RefusalWord::NameUsed => b"name-used",
            RefusalWord::NoHandle => b"no-handle",
            RefusalWord::NoSuchHandle => b"no-such-handle",
            RefusalWord::HandleTaken => b"handle-taken",
            RefusalWord::NoTransport => b"no-transport",
            RefusalWord::BadSegment => b"bad-segment",
            RefusalWord::SegmentTaken => b"segment-taken",
            RefusalWord::SegmentLength => b"segment-length",
            RefusalWord::ReaderUsed => b"reader-used",
            RefusalWord::NoReader => b"no-reader",
            RefusalWord::Range => b"range",
            RefusalWord::UrlForm => b"url-form",
            RefusalWord::UrlTaken => b"url-taken",
            RefusalWord::NoUrl => b"no-url",
            RefusalWord::NoJob => b"no-job",
            RefusalWord::StaleStamp => b"stale-stamp",
            RefusalWord::NoFile => b"no-file",
            RefusalWord::TooMany => b"too-many",
            RefusalWord::LimitsAgain => b"limits-again",
        }
    }
}

impl RefusalWord {
    /// The word of this text, where there is one.
    pub fn from_text(text: &[u8]) -> Option<RefusalWord>
        ensures { IsWordOf refusal_text text.now result }
    {
        find(&REFUSALS, text)
    }
}
