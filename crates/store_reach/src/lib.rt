//! What a store holds, counted anew from what its parts hold: its check of itself.
#![tactic(auto)]

mod lives;
mod pieces;
mod tally;
mod walk;
mod window;

pub use lives::live_names;
pub use pieces::reached_pieces;
pub use tally::tally_of;
