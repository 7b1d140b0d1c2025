//! Words of a fixed list, each with its text.

ghost use Rattle.std.specs.Prelude.{◌≡◌};
ghost use Rattle.text_fields.specs.Keyword.{look_up};

/// A word of a fixed list.
pub trait Keyword: Copy {
    ghost use Rattle.std.specs.Prelude.{◌≡◌, ℕ, List};

    // The text of a word.
    ghost text: { Self → List ℕ };

    /// The text of the word.
    fn text(self) -> &'static [u8]
        ensures { result.now ≡ text self };
}

/// The first of the words that has this text.
pub fn find<W: Keyword>(words: &[W], text: &[u8]) -> Option<W>
    ensures { result ≡ look_up W.text words.now text.now }
{
    for word in words {
        if text == word.text() {
            return Some(*word);
        }
    }
    None
}
