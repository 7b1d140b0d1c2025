use blob_words::Limits;

/// What a build asks for and what the store holds, in bytes where nothing else is said.
#[derive(Clone, Copy, Debug, PartialEq, Eq)]
pub struct PlanInput {
    /// Own bytes that stand in the line.
    pub embedded: u64,
    /// Own bytes that will be sent.
    pub asked: u64,
    /// The number of pieces of the own bytes.
    pub pieces: u64,
    /// Whether a blob waits for room in memory.
    pub waiting: bool,
    /// Whether pieces may go to page files.
    pub paging: bool,
    /// The bytes of pieces in memory.
    pub memory_used: u64,
    /// The bytes charged to page files.
    pub disk_used: u64,
    pub limits: Limits,
}
