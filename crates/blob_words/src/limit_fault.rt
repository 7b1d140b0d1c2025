use thiserror::Error;

/// A field of the limits of a session.
#[derive(Clone, Copy, Debug, PartialEq, Eq)]
pub enum Field {
    Memory,
    Disk,
    Big,
    InlineMax,
    Segment,
    Page,
    Chunk,
}

/// Why seven numbers are no limits.
#[derive(Clone, Copy, Debug, PartialEq, Eq, Error)]
pub enum LimitFault {
    /// The first field that is 0 and may not be.
    #[error("{0:?} is 0")]
    Zero(Field),
    /// No field is 0 that may not be; the first one that passes its greatest value.
    #[error("{0:?} is too large")]
    Large(Field),
    /// Each field has a value that it may have, but `big` or `page` passes `memory`.
    #[error("big or page passes memory")]
    Order,
}
