//! What a thread steps with.
use crate::log::Log;
use crossbeam_queue::Pass;

/// A pass to a queue. It knows what it pushed and popped.
#[derive(Drop)]
pub struct QueuePass<T> {
    pub(crate) pass: Pass<T, Log<T>>,
}
