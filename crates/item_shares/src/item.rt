use blob_words::{FileName, Octets, PageNo, PieceNo};

/// Where a run of bytes comes from. Offsets and lengths are in bytes.
#[derive(Debug, Drop)]
pub enum Item {
    /// A piece in memory.
    Memory {
        piece: PieceNo,
        bytes: Octets,
    },
    /// A piece in a page file, from `off` on.
    Paged {
        piece: PieceNo,
        page: PageNo,
        off: u64,
        len: u64,
    },
    /// A piece that will be written to a page file once its bytes are there.
    Reserved {
        piece: PieceNo,
        len: u64,
    },
    /// A range of a file as it stands at this change stamp.
    File {
        name: FileName,
        stamp: u64,
        off: u64,
        len: u64,
    },
    /// A range of the data handle in this slot.
    Range {
        slot: u32,
        off: u64,
        len: u64,
    },
}
