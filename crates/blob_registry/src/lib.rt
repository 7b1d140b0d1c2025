//! The blobs that live: which stand, how they end, which go, and who needs whom.
#![tactic(auto)]

pub mod ended_blob;
pub mod fault;
mod lists;
mod look;
pub mod registry;
mod strike;
pub mod swept;
mod weigh;
mod work;

pub use ended_blob::{EndedBlob, Endings};
pub use fault::RegisterFault;
pub use registry::Registry;
pub use swept::{Names, Swept};
