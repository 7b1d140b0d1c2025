use thiserror::Error;

/// Why no group was read.
#[derive(Clone, Copy, Debug, PartialEq, Eq, Error)]
pub enum GroupFault {
    /// No group stands in front of the text. The place is the start of the first line that can't
    /// stand there, or of the line that lacks its line feed.
    #[error("no group: the line at byte {0}")]
    Form(usize),
    /// There was no memory for the group.
    #[error("out of memory")]
    Memory,
}
