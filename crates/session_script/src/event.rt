use blob_words::{
    BlobName, FileName, ItemList, JobNo, Limits, Octets, Origin, ReaderId, RendererId, UrlText,
};

/// One source of the bytes of a blob that is built.
#[derive(Debug, Drop)]
pub enum Part {
    /// The bytes stand in the line.
    Embedded(Octets),
    /// So many bytes will be sent.
    Asked(u64),
    /// `len` bytes from `off` of the file `name`, as it stands at the change stamp `stamp`.
    FileRange {
        name: FileName,
        off: u64,
        len: u64,
        stamp: u64,
    },
    /// `len` bytes from `off` of the blob `b`.
    BlobRange {
        b: BlobName,
        off: u64,
        len: u64,
    },
    /// `len` bytes from `off` of the data handle in slot `k`; `len` is above 0.
    HandleRange {
        k: u32,
        off: u64,
        len: u64,
    },
}

/// The parts of a blob, in their order.
pub type Parts = ItemList<Part>;

/// What a line of a session says.
#[derive(Debug, Drop)]
pub enum Event {
    /// The limits of a session of version 1.
    Limits(Limits),
    /// The limits of a session of version 2.
    Limits2(Limits),
    /// The renderer `r` of an origin begins.
    Spawn {
        r: RendererId,
        origin: Origin,
    },
    /// The renderer `r` dies.
    Die {
        r: RendererId,
    },
    /// The file `name` has these bytes since the change stamp `stamp`.
    File {
        name: FileName,
        stamp: u64,
        bytes: Octets,
    },
    /// The file `name` is gone.
    Gone {
        name: FileName,
    },
    /// The renderer `r` builds the blob `b` of a content type and of parts.
    Build {
        r: RendererId,
        b: BlobName,
        kind: Octets,
        parts: Parts,
    },
    /// The renderer `r` builds the blob `b` of a content type as the slice of `src` from `start`
    /// to `end`, where they are given.
    Slice {
        r: RendererId,
        b: BlobName,
        src: BlobName,
        start: Option<i64>,
        end: Option<i64>,
        kind: Octets,
    },
    /// The renderer `r` sends the segment `seg` of the blob `b`.
    Segment {
        r: RendererId,
        b: BlobName,
        seg: u32,
        bytes: Octets,
    },
    /// The renderer `r` gives the renderer `to` a handle on the blob `b`.
    Pass {
        r: RendererId,
        to: RendererId,
        b: BlobName,
    },
    /// The renderer `r` lets a handle on the blob `b` go.
    Drop {
        r: RendererId,
        b: BlobName,
    },
    /// The renderer `r` asks how the blob `b` stands.
    Stat {
        r: RendererId,
        b: BlobName,
    },
    /// The renderer `r` registers the blob URL `text` for the blob `b`.
    Url {
        r: RendererId,
        b: BlobName,
        text: UrlText,
    },
    /// The renderer `r` revokes the blob URL `text`.
    Revoke {
        r: RendererId,
        text: UrlText,
    },
    /// The renderer `r` opens the reader `q` at the offset `off` of the blob `b`, for `len`
    /// bytes or for all the rest.
    Read {
        r: RendererId,
        q: ReaderId,
        b: BlobName,
        off: u64,
        len: Option<u64>,
    },
    /// The same on the blob that the URL `text` names.
    Fetch {
        r: RendererId,
        q: ReaderId,
        text: UrlText,
        off: u64,
        len: Option<u64>,
    },
    /// The reader `q` gives its next bytes.
    Step {
        q: ReaderId,
    },
    /// The renderer `r` closes its reader `q`.
    Cancel {
        r: RendererId,
        q: ReaderId,
    },
    /// The disk has done the job `j`.
    Disk {
        j: JobNo,
    },
    /// The disk has lost the job `j`.
    Lost {
        j: JobNo,
    },
    /// What the store holds is counted.
    Count,
    /// The session ends.
    Finish,
}
