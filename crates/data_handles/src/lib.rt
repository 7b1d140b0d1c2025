//! Objects of the outside that hold bytes, and a table of them.
#![tactic(auto)]

pub mod boxed;
pub mod fault;
pub mod file;
pub mod handle;
pub mod memory;
mod place;
mod slots;
pub mod table;

pub use boxed::Boxed;
pub use fault::{OpenFault, SlotFault};
pub use file::FileHandle;
pub use handle::DataHandle;
pub use memory::MemoryHandle;
pub use table::HandleTable;
