//! The pieces in memory by their last use.
#![tactic(auto)]

pub mod recent;

pub use recent::Recent;
