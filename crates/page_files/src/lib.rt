//! Page files: which pieces they hold and reserve, the jobs that write and move them, what is
//! charged for them, and their removal.
#![tactic(auto)]

mod copies;
pub mod ending;
pub mod fault;
pub mod held;
pub mod job;
mod next_page;
pub mod page;
pub mod page_files;
mod page_table;
pub mod piece_table;
mod read;
mod turn;
mod write;

pub use ending::{Closed, JobEnd, MoveEnd};
pub use fault::{JobFault, MoveFault, NoJob, StoreFault};
pub use held::Held;
pub use page_files::PageFiles;
