//! The files that a session tells of, each with its last change stamp and its content.
#![tactic(auto)]

pub mod fault;
pub mod file_note;
pub mod table;

pub use fault::{Changed, NoFile, NoteFault};
pub use file_note::{FileNote, FileState};
pub use table::FileTable;
