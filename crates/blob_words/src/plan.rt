use crate::counted::Counted;

/// How the bytes of a blob come to the store.
#[derive(Clone, Copy, Debug, PartialEq, Eq)]
pub enum Plan {
    /// There are none.
    None,
    /// They stood in the line that built the blob.
    Inline,
    /// They are sent in so many segments and kept in memory.
    Shared(u32),
    /// They are sent in so many segments, each written to a page file of its own.
    File(u32),
    /// There is no room for them within the session's limits.
    OutOfMemory,
    /// With them the session would have too many of something.
    TooMany(Counted),
}
