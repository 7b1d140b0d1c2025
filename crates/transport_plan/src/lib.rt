//! How the bytes of a build come to the store: the plan, the pieces and the segments.
#![tactic(auto)]

pub mod choice;
pub mod input;
pub mod law;
pub mod pieces;
pub mod span;

pub use choice::plan;
pub use input::PlanInput;
pub use law::spans_cover;
pub use pieces::pieces_of;
pub use span::segment_span;
