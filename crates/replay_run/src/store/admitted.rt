use blob_words::Plan;

/// What a build that is admitted brings.
#[derive(Clone, Copy)]
pub struct Admitted {
    pub plan: Plan,
    /// The number of its pieces.
    pub pieces: u32,
}
