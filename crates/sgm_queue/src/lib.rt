//! A queue of values from one or two threads: what is pushed comes out again, each value once.
#![tactic(auto)]

mod log;
mod pass;
mod queue;
mod rule;

pub use pass::QueuePass;
pub use queue::Queue;
