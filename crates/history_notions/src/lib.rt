//! Judges transcripts by the model: each notion of it as a function, on plain lists.
#![tactic(auto)]

pub mod blobs;
pub mod builds;
pub mod claims;
pub mod construct;
pub mod contents;
pub mod course;
pub mod entries;
pub mod handles;
pub mod jobs;
pub mod kept;
pub mod live;
pub mod lookups;
pub mod pages;
pub mod parts;
pub mod pieces;
pub mod reached;
pub mod readers;
pub mod recorded;
pub mod refusals;
pub mod renderers;
pub mod run;
pub mod runs;
pub mod senders;
pub mod settle;
pub mod standing;
pub mod tally;
pub mod transport;
pub mod victims;
pub mod waits;
