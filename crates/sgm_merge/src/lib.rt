//! Many grids of heights as one, over the cells of a grid of its own.
#![tactic(auto)]

pub mod laws;
mod limits;
mod merge;
mod same_cells;
mod shared;
mod tally;

pub use limits::MAX_ENTRIES;
pub use merge::Merge;
pub use same_cells::fits;
