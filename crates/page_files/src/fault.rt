use blob_words::PageNo;
use thiserror::Error;

/// No such job is in flight.
#[derive(Clone, Copy, Debug, PartialEq, Eq, Error)]
#[error("no such job")]
pub struct NoJob;

/// Why a page job did not end well.
#[derive(Clone, Copy, Debug, PartialEq, Eq, Error)]
pub enum JobFault {
    /// The page job in flight isn't this one; all is as it was.
    #[error("no such job")]
    NoJob,
    /// The disk failed to write this page. The job has ended, its pieces stay in memory, and paging
    /// is off.
    #[error("page {} was not written", .0.0)]
    Failed(PageNo),
    /// Want of memory; all is as it was.
    #[error("out of memory")]
    NoMemory,
}

/// Why a compact job did not end well.
#[derive(Clone, Copy, Debug, PartialEq, Eq, Error)]
pub enum MoveFault {
    /// The compact job in flight isn't this one; all is as it was.
    #[error("no such job")]
    NoJob,
    /// The disk failed to read this page, which the job was to move. The job has ended, its pieces
    /// stay there, and paging is off. No page number was used.
    #[error("page {} was not read", .0.0)]
    Unread(PageNo),
    /// The disk failed to write this page. The job has ended, its pieces stay where they were, and
    /// paging is off.
    #[error("page {} was not written", .0.0)]
    Failed(PageNo),
    /// Want of memory; the job is as it was.
    #[error("out of memory")]
    NoMemory,
}

/// Why a piece was not stored.
#[derive(Clone, Copy, Debug, PartialEq, Eq, Error)]
pub enum StoreFault {
    /// The disk failed to write this page. The piece stays reserved.
    #[error("page {} was not written", .0.0)]
    Failed(PageNo),
    /// Want of memory; all is as it was.
    #[error("out of memory")]
    NoMemory,
}
