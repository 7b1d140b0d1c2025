//! What programs that show cases share: the words of a line, how an answer is shown, a disk that a
//! line tells, what a disk did, and calls on paths.
#![tactic(auto)]

mod changes;
mod disk;
mod paths;
mod shown;
mod words;

pub use changes::show_changes;
pub use disk::memory_disk;
pub use paths::call_path;
pub use shown::{show, show_part, show_read};
pub use words::{number, numbers, short_number, word};
