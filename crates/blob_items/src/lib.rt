//! Views on items, and the lists of views of which a blob is made.
#![tactic(auto)]

mod starts;
pub mod view;
pub mod view_list;

pub use view::View;
pub use view_list::ViewList;
