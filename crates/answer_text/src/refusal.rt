use blob_words::{BlobName, Counted, JobNo, ReaderId, RendererId};

/// Why a line is refused, with the details that are printed.
#[derive(Clone, Copy, Debug, PartialEq, Eq)]
pub enum Refusal {
    /// The renderer was never spawned, or it is dead.
    NoRenderer(RendererId),
    /// The renderer was spawned before.
    RendererUsed(RendererId),
    /// A blob of this name was built before.
    NameUsed(BlobName),
    /// The renderer has no handle on the blob.
    NoHandle(RendererId, BlobName),
    /// There is no such slot of a data handle.
    NoSuchHandle(u32),
    /// A blob has the data handle of this slot already.
    HandleTaken(u32),
    /// The renderer sends no bytes of this blob now.
    NoTransport(BlobName),
    /// The plan has only so many segments.
    BadSegment(u32),
    /// This segment came before.
    SegmentTaken(u32),
    /// The segment has so many bytes.
    SegmentLength(u64),
    /// A reader of this number is open.
    ReaderUsed(ReaderId),
    /// No reader of this number is open, or it is another renderer's.
    NoReader(ReaderId),
    /// The range passes the blob's size, which is this.
    Range(u64),
    /// The text isn't a blob URL of the renderer's origin.
    UrlForm,
    /// The text is registered already.
    UrlTaken,
    /// No URL of the renderer's origin has the text.
    NoUrl,
    /// The job isn't in flight.
    NoJob(JobNo),
    /// The file's last change stamp is this.
    StaleStamp(u64),
    /// Nothing is recorded of the file.
    NoFile,
    /// With this line the session would have too many of something.
    TooMany(Counted),
    /// The limits were stated before.
    LimitsAgain,
}
