//! Judges transcripts by the model, and by nothing of the store.
#![tactic(auto)]

pub mod auditor;
pub mod cells;
pub mod disk;
pub mod drops;
pub mod endings;
pub mod equal;
pub mod failing;
pub mod giving;
pub mod grants;
pub mod judge;
pub mod large;
pub mod own;
pub mod removals;
pub mod run;
pub mod same;
pub mod settling;
pub mod single;
pub mod stands;
pub mod starts;
pub mod step;
pub mod told;
pub mod values;
pub mod verdict;
pub mod why;
