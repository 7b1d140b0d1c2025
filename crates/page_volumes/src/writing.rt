use blob_words::PageNo;

/// An open write: its page, its length in bytes, and how many of them came.
#[derive(Clone, Copy, Debug, PartialEq, Eq)]
pub struct Writing {
    pub page: PageNo,
    pub len: u64,
    pub came: u64,
}
