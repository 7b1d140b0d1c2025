use crate::session_end::SessionEnd;

/// What one line of a session led to.
#[derive(Clone, Copy, Debug, PartialEq, Eq)]
pub enum Turn {
    /// The session goes on.
    More,
    /// It is over.
    Over(SessionEnd),
}
