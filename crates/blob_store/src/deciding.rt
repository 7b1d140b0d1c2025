//! How a line that builds is decided. These functions only look.

mod faults;
mod plan;
mod refusals;
mod slots;
mod status;
mod weights;
