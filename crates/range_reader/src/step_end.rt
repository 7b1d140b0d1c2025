use blob_words::PageNo;
use thiserror::Error;

/// What a step of a reader came to.
#[derive(Clone, Copy, Debug, PartialEq, Eq)]
pub enum StepEnd {
    /// So many bytes were read, at least one.
    Bytes(usize),
    /// Nothing is left of the range.
    End,
    /// The file of the view at this place in the list isn't at its stamp, or is too short.
    FileChanged(usize),
    /// The disk failed to read this page; its count of faults rose.
    PageFault(PageNo),
    /// The object in this slot failed; its count of faults rose.
    HandleFault(u32),
}

/// The range ends behind the blob's last byte.
#[derive(Clone, Copy, Debug, PartialEq, Eq, Error)]
#[error("the range ends behind the last of {size} bytes")]
pub struct Range {
    /// The size of the blob, in bytes.
    pub size: u64,
}
