//! The segments of a build, which come in any order, and the pieces that they make.
#![tactic(auto)]

pub mod assembly;
mod copies;
mod pieces;
pub mod segment_fault;

pub use assembly::Assembly;
pub use segment_fault::SegmentFault;
