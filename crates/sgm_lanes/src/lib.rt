//! Kernels over the indices of a pixel, over packed codes and over the values of a row. Each gives
//! what its plain definition says, for every length: whole chunks of lanes first, then the rest one
//! by one, or a plain loop where the compiler finds the lanes by itself. None takes memory.
#![tactic(auto)]

mod codes;
mod first;
mod lane;
mod minimum;
mod network;
mod recurrence;
mod smoothing;
mod sums;

pub use codes::{differing, hamming, hamming_to};
pub use first::first_of;
pub use minimum::least;
pub use network::{middle, middles};
pub use recurrence::{add_step, step};
pub use smoothing::{smooth, smooth_last};
pub use sums::add;
