//! A list of numbers that finds the first that is small enough, in logarithmic time.
#![tactic(auto)]

pub mod fit;
mod tree;

pub use fit::FirstFit;
