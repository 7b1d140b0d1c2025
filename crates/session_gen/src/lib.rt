//! Generated sessions: the same events for the same number, with builds, slices, reads and pages.
#![tactic(auto)]

mod first;
mod round;
mod session;
mod words;

pub use session::generate;
