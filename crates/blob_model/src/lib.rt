//! What a legal transcript is.
#![tactic(auto)]

pub mod laws;
pub mod rows;
