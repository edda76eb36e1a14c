//! What workers do on a board: each passes fronts on through the strips that it claims, and what
//! they leave undone is done at the end by the caller.
#![tactic(auto)]

mod finishing;
mod gate;
mod matching;
mod parcels;
mod scanning;
mod working;

pub use finishing::{CALLER, finish};
pub use gate::{Came, Gate, OpenGate, come};
pub use matching::{Matched, match_all};
pub use parcels::complete_parcels;
pub use scanning::scan;
pub use working::work;
