//! A session replayed against a blob store: bytes in, a transcript out.
#![tactic(auto)]

mod reason;
mod refusal_line;
// The worked session, whose laws are contracts of public calls.
pub mod rows;
mod session;
mod session_end;
mod store;
mod turn;

pub use crate::session::run;
