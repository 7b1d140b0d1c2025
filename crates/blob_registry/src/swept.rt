use blob_entries::Items;
use blob_words::{BlobName, ItemList};

/// Names, the greatest build number first.
pub type Names = ItemList<BlobName>;

/// What a sweep did.
#[derive(Debug, Drop)]
pub struct Swept {
    /// The unfinished blobs that went, the greatest build number first.
    pub dropped: Names,
    /// The items whose last view went, in the order in which it went: by falling build number of
    /// the blob, then in the order of its views.
    pub freed: Items,
}
