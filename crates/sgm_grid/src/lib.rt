//! A grid of heights: its ranges, the points that fall into its cells, and its text.
#![tactic(auto)]

mod asc;
mod asc_fault;
mod bins;
mod bridges;
mod grid;
mod grid_spec;
mod head;
mod keep;
pub mod laws;
mod limits;
mod numbers;
mod placed;
mod text;

pub use asc::read_asc;
pub use asc_fault::{AscError, AscFault};
pub use bins::Bins;
pub use bridges::bridge;
pub use grid::{Grid, higher};
pub use grid_spec::GridSpec;
pub use keep::{Gridding, Keep};
pub use limits::{MAX_BRIDGE, MAX_CELL, MAX_HEIGHT, MAX_PLACE, NO_HEIGHT};
pub use placed::Placed;
pub use text::{HEAD_ROOM, append_head};
