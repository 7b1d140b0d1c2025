//! The two fields of what is counted, in a refusal: its word, and how many of it there may be.

ghost use Rattle.std.specs.Prelude.{◌≡◌, [], ◌∷◌};
ghost use Rattle.text_fields.specs.Counted.{counted_word, counted_limit, counted_fields};
ghost use Rattle.text_fields.specs.Keyword.{IsWordOf};

use crate::keyword::{Keyword, find};
use blob_words::Counted;

// All that is counted.
const COUNTED: [Counted; 8] = [
    Counted::Renderers,
    Counted::Blobs,
    Counted::Segments,
    Counted::Pieces,
    Counted::Views,
    Counted::Readers,
    Counted::Urls,
    Counted::Files,
];

impl Keyword for Counted {
    ghost text = { counted_word };

    fn text(self) -> &'static [u8] {
        match self {
            Counted::Renderers => b"renderers",
            Counted::Blobs => b"blobs",
            Counted::Segments => b"segments",
            Counted::Pieces => b"pieces",
            Counted::Views => b"views",
            Counted::Readers => b"readers",
            Counted::Urls => b"urls",
            Counted::Files => b"files",
        }
    }
}

/// How many of it a session may have.
pub fn limit_text(counted: Counted) -> &'static [u8]
    ensures { result.now ≡ counted_limit counted }
{
    match counted {
        Counted::Renderers => b"1024",
        Counted::Blobs => b"65536",
        Counted::Segments => b"65536",
        Counted::Pieces => b"65536",
        Counted::Views => b"4194304",
        Counted::Readers => b"4096",
        Counted::Urls => b"16384",
        Counted::Files => b"16384",
    }
}

/// What has this word and this limit, where anything has.
pub fn counted_of(word: &[u8], limit: &[u8]) -> Option<Counted>
    ensures { IsWordOf counted_fields (word.now ∷ limit.now ∷ []) result }
{
    match find(&COUNTED, word) {
        Some(counted) => {
            if limit == limit_text(counted) {
                return Some(counted);
            }
            None
        }
        None => None,
    }
}
