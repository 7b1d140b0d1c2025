//! A run: cells that stand one after the other in one source.
ghost use Rattle.std.specs.Prelude.{◌≡◌, ◌+◌, ◌<◌, ◌^◌, IfOk};

use blob_words::{BlobName, FileName, NoMemory};
use std::alloc::Global;

/// Where the bytes of cells come from.
#[derive(Debug, Drop)]
pub enum Source {
    /// A blob's own bytes.
    Sent(BlobName),
    /// A file at a change stamp.
    Filed(FileName, u64),
    /// The data handle in a slot.
    Lent(u32),
}

/// Cells of a source: `len` of them, from the index `from` on.
#[derive(Debug, Drop)]
pub struct Run {
    pub source: Source,
    pub from: u128,
    pub len: u64,
    ghost within: { from + len < 2 ^ 66 },
}

impl Source {
    /// The same source once more.
    pub fn copy(&self, alloc: Global) -> Result<Source, NoMemory>
        ensures { IfOk result (λ source. source ≡ self.now) }
    {
        match self {
            Source::Sent(blob) => Ok(Source::Sent(*blob)),
            Source::Filed(name, stamp) => Ok(Source::Filed(name.copy(alloc)?, *stamp)),
            Source::Lent(slot) => Ok(Source::Lent(*slot)),
        }
    }
}
