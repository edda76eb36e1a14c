//! The ground that a map of disparities shows: its grid of heights, and the tallies of regions over
//! it.
#![tactic(auto)]

mod adding;
mod placing;
mod shown;
mod tallying;

pub use adding::heights;
pub use shown::Shown;
pub use tallying::{Tallied, tally_ground};
