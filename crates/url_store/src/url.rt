use blob_words::{BlobName, Origin, RendererId};

/// What a blob URL stands for.
#[derive(Debug, Drop)]
pub struct Url {
    /// The blob that it leads to.
    pub blob: BlobName,
    /// The renderer that made it.
    pub owner: RendererId,
    /// The origin of that renderer.
    pub origin: Origin,
}
