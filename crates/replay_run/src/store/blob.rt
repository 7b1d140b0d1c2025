use blob_words::{BlobName, Octets, RendererId};

/// A blob that lives, with its bytes.
#[derive(Debug, Drop)]
pub struct Blob {
    pub name: BlobName,
    /// The renderer that has a handle on it, if one has.
    pub holder: Option<RendererId>,
    pub bytes: Octets,
    /// The number of its pieces.
    pub pieces: u32,
}
