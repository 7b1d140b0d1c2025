use blob_words::{Octets, PageNo};

/// A page file in memory: its page, and its bytes, or none where its write failed.
#[derive(Debug, Drop)]
pub struct Stored {
    pub page: PageNo,
    pub bytes: Option<Octets>,
}
