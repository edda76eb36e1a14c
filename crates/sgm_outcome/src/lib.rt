//! How a run ended: its outcome, the program's status, and the line of the outcome.
#![tactic(auto)]

mod outcome;
mod refusals;
mod write;

pub use outcome::{Outcome, Refusal};
pub use write::{write_fault, write_line};
