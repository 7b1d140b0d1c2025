//! The items that views share, each with the number of views on it.
#![tactic(auto)]

pub mod item;
pub mod shares;

pub use item::Item;
pub use shares::Shares;
