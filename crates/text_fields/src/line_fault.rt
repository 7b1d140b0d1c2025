use blob_words::NoMemory;
use thiserror::Error;

/// Why a line was not read.
#[derive(Clone, Copy, Debug, PartialEq, Eq, Error)]
pub enum LineFault {
    /// The line begins with no event's word, or a part with no part's letter.
    #[error("no such word")]
    Word,
    /// The number of fields isn't one that the word or the letter has.
    #[error("wrong number of fields")]
    Fields,
    /// A field is no number, or one outside the field's range.
    #[error("no number of its range")]
    Number,
    /// A field isn't `-` or pairs of lower-case hexadecimal digits.
    #[error("no bytes in hexadecimal digits")]
    Hex,
    /// A field isn't a name, an origin or a text of its form.
    #[error("no name of its form")]
    Name,
    /// A content type has more than 255 bytes.
    #[error("content type too long")]
    Type,
    /// The seven numbers are no limits.
    #[error("no limits")]
    Limits,
    /// There was no memory for the event.
    #[error("out of memory")]
    Memory,
}

impl From<NoMemory> for LineFault {
    ghost use Rattle.std.specs.Prelude.{◌≡◌};
    ghost use Rattle.text_fields.specs.declared.line_fault.LineFault.TheVariants.{Memory};

    ghost from_gives = { λ _ fault. fault ≡ Memory };

    fn from(_error: NoMemory) -> LineFault {
        LineFault::Memory
    }
}
