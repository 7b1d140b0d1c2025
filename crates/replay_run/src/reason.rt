use session_script::LineFault;

/// Why a session was refused at a line, in the order in which the words are tested.
#[derive(Clone, Copy, Debug, PartialEq, Eq)]
pub enum Reason {
    /// The session has too many lines.
    Lines,
    /// The line is too long.
    Long,
    /// The session ended without the line's feed.
    Unended,
    /// The line begins with no word of an event.
    Word,
    /// It has another number of fields than its event has.
    Fields,
    /// A field is no number, or one outside the field's range.
    Number,
    /// A field isn't `-` or pairs of lower-case hexadecimal digits.
    Hex,
    /// A field isn't a name, an origin or a text of its form.
    Name,
    /// A content type has more than 255 bytes.
    Type,
    /// The seven numbers are no limits.
    Limits,
    /// The first line states no limits.
    First,
    /// The line's effect isn't built yet.
    Unbuilt,
}

impl Reason {
    ghost use Rattle.std.specs.Prelude.{◌≡◌};
    ghost use Rattle.replay_run.specs.Reason.{reason_text, reason_of};

    /// The word behind `!` and the line's number.
    pub fn text(self) -> &'static [u8]
        ensures { result.now ≡ reason_text self }
    {
        match self {
            Reason::Lines => b"lines",
            Reason::Long => b"long",
            Reason::Unended => b"unended",
            Reason::Word => b"word",
            Reason::Fields => b"fields",
            Reason::Number => b"number",
            Reason::Hex => b"hex",
            Reason::Name => b"name",
            Reason::Type => b"type",
            Reason::Limits => b"limits",
            Reason::First => b"first",
            Reason::Unbuilt => b"unbuilt",
        }
    }

    /// The word for a fault of a line; want of memory has none.
    pub fn of_fault(fault: LineFault) -> Option<Reason>
        ensures { result ≡ reason_of fault }
    {
        match fault {
            LineFault::Word => Some(Reason::Word),
            LineFault::Fields => Some(Reason::Fields),
            LineFault::Number => Some(Reason::Number),
            LineFault::Hex => Some(Reason::Hex),
            LineFault::Name => Some(Reason::Name),
            LineFault::Type => Some(Reason::Type),
            LineFault::Limits => Some(Reason::Limits),
            LineFault::Memory => None,
        }
    }
}
