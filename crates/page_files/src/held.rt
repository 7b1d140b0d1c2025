use blob_words::PieceNo;

/// A piece of a page file or of a job.
#[derive(Clone, Copy, Debug, PartialEq, Eq)]
pub struct Held {
    pub piece: PieceNo,
    /// The slot of its item.
    pub slot: usize,
    /// Where it begins in its page file, in bytes; 0 while it is in none.
    pub off: u64,
    /// Its length in bytes.
    pub len: u64,
}
