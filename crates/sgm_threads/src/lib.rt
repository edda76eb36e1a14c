//! Work that threads share: a step that each of them does, and pieces of which each makes the next.
#![tactic(auto)]

mod places;
mod sharing;
mod starting;

pub use places::empty_places;
pub use sharing::side_by_side;
pub use starting::in_threads;
