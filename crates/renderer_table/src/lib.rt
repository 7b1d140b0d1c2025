//! The renderers of a session, and how many handles each has on each blob.
#![tactic(auto)]

pub mod counts;
pub mod fault;
pub mod living;
pub mod table;

pub use fault::{DropFault, PassFault, SpawnFault};
pub use table::Renderers;
