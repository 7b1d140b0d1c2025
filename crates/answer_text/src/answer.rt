use crate::refusal::Refusal;
use blob_words::{
    BlobName, FileName, ItemList, JobNo, Octets, PageNo, PieceList, PieceNo, Plan, ReaderId, Status,
};

/// One answer to a line: its own, or one of the settling that follows.
#[derive(Debug, Drop)]
pub enum Answer {
    /// The line was accepted.
    Good,
    /// The line was refused.
    Refused(Refusal),
    /// A blob was built, and its bytes come so.
    Planned(Plan),
    /// The blob broke.
    Broken(BlobName, Status),
    /// The segment was taken.
    Taken(u32),
    /// The segment's piece was written to the page file.
    Stored(PageNo, PieceNo),
    /// The segment's piece could not be written.
    StoreFailed(PageNo),
    /// How a blob stands.
    Told {
        b: BlobName,
        size: u64,
        kind: Octets,
        status: Status,
    },
    /// The URL was revoked.
    Revoked,
    /// There was no such URL of the renderer's.
    Nothing,
    /// The reader is open on a blob of this size and content type.
    Opened {
        q: ReaderId,
        size: u64,
        kind: Octets,
    },
    /// The reader gives these bytes; at least one.
    Given(ReaderId, Octets),
    /// The reader's blob isn't done yet.
    Wait(ReaderId),
    /// The reader is closed: its range is read, or its blob is broken.
    Ended(ReaderId, Status),
    /// The reader is closed: the file isn't as it was.
    FileChanged(ReaderId, FileName),
    /// The reader is closed: the page file could not be read.
    PageFault(ReaderId, PageNo),
    /// The reader is closed: the data handle could not be read.
    HandleFailed(ReaderId, u32),
    /// The job's pieces were written to the page file.
    Paged(JobNo, PageNo, PieceList),
    /// The job had no piece left.
    Empty(JobNo),
    /// The job's pieces could not be written.
    PageFailed(JobNo, PageNo),
    /// The job's pieces moved to the page file.
    Moved(JobNo, PageNo, PieceList),
    /// The job's pieces could not be written to the new page file.
    MoveFailed(JobNo, PageNo),
    /// The job's pieces could not be read from the old page file.
    MoveUnread(JobNo, PageNo),
    /// The job was lost.
    LostJob(JobNo),
    /// How many live blobs, URLs, open readers and waiting blobs there are, and whether pages are
    /// written.
    Held {
        blobs: u32,
        urls: u32,
        readers: u32,
        waiting: u32,
        paging: bool,
    },
    /// The blob was dropped before it was done, since nothing held it.
    Dropped(BlobName),
    /// The blob is done.
    Done(BlobName),
    /// The page file was removed.
    Removed(PageNo),
    /// The page file could not be removed.
    Left(PageNo),
    /// The waiting blob has its room.
    Granted(BlobName),
    /// A job begins to page these pieces out.
    Job(JobNo, PieceList),
    /// A job begins to move these pieces out of the page file.
    Compacting(JobNo, PageNo, PieceList),
}

/// The answers to a line, in their order.
pub type Answers = ItemList<Answer>;
