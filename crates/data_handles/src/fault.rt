use thiserror::Error;

/// Why a slot can't be claimed.
#[derive(Clone, Copy, Debug, PartialEq, Eq, Error)]
pub enum SlotFault {
    /// The table has no such slot.
    #[error("no such slot")]
    NoSuch,
    /// The slot was claimed before.
    #[error("the slot is claimed")]
    Claimed,
}

/// Why a file was not opened.
#[derive(Clone, Copy, Debug, PartialEq, Eq, Error)]
pub enum OpenFault {
    /// The file can't be opened, or its length can't be told.
    #[error("no such file")]
    Missing,
    #[error("out of memory")]
    NoMemory,
}
