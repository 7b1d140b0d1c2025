//! The fields of a line of text: each value has one spelling, is read from it and put as it.
#![tactic(auto)]

pub mod buffer;
pub mod counted;
pub mod field;
pub mod fields;
mod growing;
pub mod keyword;
// Contracts above see the type.
pub mod line_fault;
pub mod literal;
pub mod put;
pub mod row;
pub mod stream;
pub mod values;

pub use line_fault::LineFault;
