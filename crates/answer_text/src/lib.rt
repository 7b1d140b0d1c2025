//! The groups of a transcript: each line's event with its answers and the tally behind it.
#![tactic(auto)]

// Contracts above see the types of `answer`, `group` and `refusal`.
pub mod answer;
mod answer_reader;
mod answer_word;
mod answer_writer;
mod further;
pub mod group;
mod group_fault;
mod group_reader;
mod group_writer;
// The laws, which are contracts of public calls.
pub mod laws;
mod lines;
mod plan_word;
mod plans;
pub mod refusal;
mod refusal_word;
mod refusals;
mod rows;
mod text_fault;

pub use answer::{Answer, Answers};
pub use group::{Group, Groups};
pub use group_fault::GroupFault;
pub use group_reader::read_group;
pub use group_writer::{print_group, stream_group, stream_group_through};
pub use refusal::Refusal;
pub use text_fault::TextFault;
