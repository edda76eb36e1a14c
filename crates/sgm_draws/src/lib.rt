//! Numbers that several threads draw, each once: a word that only grows, on which each draw is one
//! step.
#![tactic(auto)]

mod calls;
mod draws;
pub mod laws;
mod limits;
mod rule;
mod start;
mod ticket;
mod view;

pub use draws::Draws;
pub use limits::{MAX_NUMBERS, MAX_TICKETS};
pub use ticket::Ticket;
