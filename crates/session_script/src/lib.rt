//! The events of a session, and the lines that spell them.
#![tactic(auto)]

// Contracts above see the types of `event`.
pub mod event;
// The laws, which are contracts of public calls.
pub mod laws;
mod letter;
mod line;
mod part;
mod print;
mod word;

pub use event::{Event, Part, Parts};
pub use line::read_line;
pub use print::{print_event, stream_event};
pub use text_fields::LineFault;
