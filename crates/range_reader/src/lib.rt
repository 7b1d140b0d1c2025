//! Reads a range of a blob, step by step, from where its bytes are.
#![tactic(auto)]

mod item;
pub mod reader;
pub mod step_end;
mod views;

pub use reader::Reader;
pub use step_end::{Range, StepEnd};
