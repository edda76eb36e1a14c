//! The hand-over machine: which worker holds which strip, which has the front of which direction,
//! and how many strips each front has passed. The events that change it are judged here, one after
//! the other; what holds after every list of events stands in [`laws`].
#![tactic(auto)]

mod event;
pub mod laws;
mod machine;
mod replaying;

pub use event::{Event, Illegal};
pub use machine::Machine;
pub use replaying::{ReplayError, replay};

#[cfg(test)]
mod tests;
