use thiserror::Error;

/// Why a content of a file was not taken. The table is as it was.
#[derive(Clone, Copy, Debug, PartialEq, Eq, Error)]
pub enum NoteFault {
    /// The last stamp that was taken for the name, which is at least the one given.
    #[error("the last stamp of the file is {0}")]
    StaleStamp(u64),
    /// The name is new, and there are as many names as a table takes.
    #[error("too many files")]
    Full,
    #[error("out of memory")]
    NoMemory,
}

/// Nothing is recorded under the name now.
#[derive(Clone, Copy, Debug, PartialEq, Eq, Error)]
#[error("no such file")]
pub struct NoFile;

/// The file isn't recorded at the stamp, or is too short.
#[derive(Clone, Copy, Debug, PartialEq, Eq, Error)]
#[error("the file has changed")]
pub struct Changed;
