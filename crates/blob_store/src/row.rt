use blob_words::{ItemList, Octets64, Plan};
use segment_assembly::Assembly;

/// Where the own bytes of a blob are while they come.
#[derive(Debug, Drop)]
pub enum Sending {
    /// They all have their items, or none come any more.
    Settled,
    /// They wait for room in memory.
    Waiting,
    /// They are gathered in memory.
    Gathering(Assembly),
    /// They go to page files: the slot of each piece, and whether it came.
    Writing(ItemList<usize>, ItemList<bool>),
}

/// What is kept of a blob beside its entry in the registry, from its line to the session's end.
#[derive(Debug, Drop)]
pub struct Row {
    /// None where the blob broke at its own line.
    pub plan: Option<Plan>,
    /// The most views that it can have.
    pub weight: u64,
    /// The number of its first piece.
    pub first: u32,
    /// The lengths of its own parts, in bytes.
    pub lengths: Octets64,
    pub sending: Sending,
}
