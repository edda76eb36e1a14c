//! Selection: for each pixel of a row the index at which its sum is least, the check from left to
//! right, which keeps those of both images that agree, and the disparity between whole indices, by
//! the sums beside the least one; by rows, and for all strips of a scene.
#![tactic(auto)]

mod check;
mod indices;
pub mod laws;
mod maps;
mod matching;

pub use check::{check_row, sixteenths};
pub use indices::{base_row, match_row};
pub use maps::{join_strips, select, select_strip};
pub use matching::matches;
