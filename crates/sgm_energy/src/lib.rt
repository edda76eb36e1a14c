//! Directions, penalties, and the least energies along rays: the definitions in `specs/`, and what
//! follows from them in [`laws`].
#![tactic(auto)]

mod dir;
pub mod laws;
mod pen;

pub use dir::Dir;
pub use pen::Pen;
