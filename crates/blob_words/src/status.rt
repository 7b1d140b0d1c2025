/// Where a blob stands.
#[derive(Clone, Copy, Debug, PartialEq, Eq)]
pub enum Status {
    /// Broken at its own line: a part names the blob itself or a range that isn't there.
    InvalidArguments,
    /// Broken at its own line: its bytes fit neither memory nor page files.
    OutOfMemory,
    /// Broken: its bytes could not be written to a page file.
    FileWriteFailed,
    /// Broken: its builder died before all its bytes had come.
    SourceDied,
    /// Dropped before it was done, since nothing held it.
    Dereferenced,
    /// Broken: a blob that it takes bytes from is broken or not held by its builder.
    ReferencedBlobBroken,
    /// Broken at its own line: a file that it names is not recorded.
    ReferencedFileUnavailable,
    /// All its bytes can be read.
    Done,
    /// It waits for room in memory.
    PendingQuota,
    /// It waits for bytes to be sent.
    PendingTransport,
    /// It waits for the blobs that it takes bytes from.
    PendingReferencedBlobs,
}
