//! What changed between two surveys of the same ground, from their grids of heights.
#![tactic(auto)]

mod compare;
mod difference;
mod volumes;

pub use compare::{Changed, change};
pub use difference::write_difference;
pub use volumes::write_volumes;
