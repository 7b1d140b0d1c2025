//! The File API's rules for slices of a blob: which bytes a slice takes, and how its type is
//! kept.
#![tactic(auto)]

pub mod kind;
pub mod range;

pub use kind::normal_type;
pub use range::slice_range;
