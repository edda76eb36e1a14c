//! Certificates: for a pixel, a direction and an index, a sequence of indices along the ray that
//! ends in the index and has the least energy, with the parts of that energy.
#![tactic(auto)]

mod certificate;
mod energies;
pub mod laws;
mod place;
mod steps;
mod traced;
mod write;

pub use certificate::trace;
pub use traced::{Step, Traced};
pub use write::write_trace;
