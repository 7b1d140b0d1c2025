use thiserror::Error;

/// Why a segment was not taken. Nothing was changed.
#[derive(Clone, Copy, Debug, PartialEq, Eq, Error)]
pub enum SegmentFault {
    /// There is no segment of this number; so many there are.
    #[error("not one of {0} segments")]
    BadSegment(u32),
    /// The segment was taken before.
    #[error("taken before")]
    Taken,
    /// The segment has so many bytes and no other number of them.
    #[error("not the {0} bytes of the segment")]
    Length(u64),
}
