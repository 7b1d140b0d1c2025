use blob_words::{Octets, PageNo};

/// What a disk did.
#[derive(Debug, Drop)]
pub enum Change {
    /// The page was written whole, with these bytes.
    Put(PageNo, Octets),
    /// The write of the page failed.
    Torn(PageNo),
    /// The page was removed.
    Remove(PageNo),
    /// The removal of the page failed.
    Left(PageNo),
}
