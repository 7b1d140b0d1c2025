//! What stands under the names of blobs: what each is made of, how it stands, who holds it, and the
//! views that it has on shared items.
#![tactic(auto)]

pub mod counts;
pub mod entry;
mod fields;
mod held;
mod lookup;
mod make;
mod name_index;
mod sources;
pub mod status;
pub mod step;
pub mod table;

pub use counts::Items;
pub use entry::Entry;
pub use step::{Recipe, Step};
pub use table::Table;
