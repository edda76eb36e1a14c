//! Volumes over the regions of a grid, and the table of them.
#![tactic(auto)]

mod base;
pub mod laws;
mod outline;
mod region;
mod table;
mod volumes;

pub use base::{BasePlane, MAX_RISE};
pub use outline::{MAX_CORNERS, MIN_CORNERS};
pub use region::{MAX_NAME, Region, is_region_name};
pub use table::{Columns, write_report};
pub use volumes::{RegionTally, tally};
