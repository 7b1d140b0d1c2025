//! Page files behind a trait: over memory for tests, and over a folder.
#![tactic(auto)]

pub mod change;
pub mod disk;
pub mod fault;
mod find;
pub mod folder;
mod log;
pub mod memory;
mod place;
mod written;

pub use change::Change;
pub use disk::PageDisk;
pub use fault::PutFault;
pub use folder::FolderDisk;
pub use memory::MemoryDisk;
