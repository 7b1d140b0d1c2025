use thiserror::Error;

/// Why the write of a page did not begin.
#[derive(Clone, Copy, Debug, PartialEq, Eq, Error)]
pub enum PutFault {
    /// The disk failed; its count of faults rose.
    #[error("the disk failed")]
    Failed,
    /// Want of memory; the disk is as it was.
    #[error("out of memory")]
    NoMemory,
}
