/// What a store holds after a line.
#[derive(Clone, Copy, Debug, PartialEq, Eq)]
pub struct Tally {
    /// The pieces that some live blob has a byte of.
    pub pieces: u32,
    /// The bytes of those of them that are in memory.
    pub memory: u64,
    /// The page files that hold such a piece.
    pub files: u32,
    /// The bytes charged to page files.
    pub disk: u64,
}
