//! The bytes charged to memory, and the queue of blobs that wait for room.
#![tactic(auto)]

pub mod quota;

pub use quota::Quota;
