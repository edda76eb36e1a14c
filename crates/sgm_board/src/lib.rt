//! The board on which workers hand parcels and fronts to one another without a lock. Each step on
//! it is one legal event of the hand-over machine of `sgm_handover`; what holds at every moment,
//! whatever the order of the workers' steps, stands in [`laws`].
#![tactic(auto)]

mod board;
mod calls;
mod close;
mod deal;
pub mod laws;
mod pass;
mod rule;
mod slot;
mod start;
mod steps;
mod view;

pub use board::Board;
pub use pass::Pass;
