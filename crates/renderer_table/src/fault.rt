use blob_words::RendererId;
use thiserror::Error;

/// Why a renderer was not spawned. The table is as it was.
#[derive(Clone, Copy, Debug, PartialEq, Eq, Error)]
pub enum SpawnFault {
    /// The number was spawned before, alive or dead.
    #[error("the number was used")]
    Used,
    /// As many were spawned as a table takes.
    #[error("too many renderers")]
    Full,
    #[error("out of memory")]
    NoMemory,
}

/// Why a handle was not passed on. The table is as it was.
#[derive(Clone, Copy, Debug, PartialEq, Eq, Error)]
pub enum PassFault {
    /// The first of the two that isn't alive.
    #[error("no renderer {0:?}")]
    NoRenderer(RendererId),
    /// The giver has no handle on the blob.
    #[error("no handle")]
    NoHandle,
    #[error("out of memory")]
    NoMemory,
}

/// Why a handle was not dropped. The table is as it was.
#[derive(Clone, Copy, Debug, PartialEq, Eq, Error)]
pub enum DropFault {
    /// The renderer isn't alive.
    #[error("no renderer {0:?}")]
    NoRenderer(RendererId),
    /// It has no handle on the blob.
    #[error("no handle")]
    NoHandle,
}
