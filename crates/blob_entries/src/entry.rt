use crate::step::Recipe;
use blob_items::ViewList;
use blob_words::{Octets, RendererId, Status};

/// What stands under a build number.
#[derive(Debug, Drop)]
pub struct Entry {
    /// The renderer that built it.
    pub owner: RendererId,
    /// In bytes.
    pub size: u64,
    /// The content type.
    pub kind: Octets,
    pub status: Status,
    /// How many hold it.
    pub roots: u64,
    /// What it is made of; empty once it is done, or broken and swept.
    pub recipe: Recipe,
    /// The views of its own pieces, once they were brought and until it is done, or broken and
    /// swept.
    pub own: Option<ViewList>,
    /// Its bytes, once it is done.
    pub views: ViewList,
    /// With what it is to break in the next pass.
    pub mark: Option<Status>,
}
