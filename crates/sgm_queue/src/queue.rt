//! The queue.
ghost use Rattle.std.specs.Prelude.{◌≡◌, ◌<◌, Bool, count_by, Contains, IfOk, OnOk, OnErr, IfErr};
ghost use Rattle.std.specs.Prelude.{IfNone, IfSome};
ghost use Rattle.sgm_queue.specs.Logs.{after_pop, after_push, first, given, joined, kept};
ghost use Rattle.sgm_queue.specs.Queues.{IsQueuePassOf, HasBoth, WasFull, log_of, room_of};

use crate::log::Log;
use crate::pass::QueuePass;
use crate::rule::{EachOnce, Gather, Pop, Push, Share};
use crossbeam_queue::RuledArrayQueue;
use std::alloc::{AllocError, Global};
use std::sync::Wait;

/// A queue through which one or two threads hand values on. Its first pass has both shares in it.
#[derive(Drop)]
pub struct Queue<T: Drop> {
    pub(crate) inner: RuledArrayQueue<T, Log<T>, EachOnce>,
}

impl<T: Drop> Queue<T> {
    /// An empty queue with room for so many values, and its first pass.
    pub fn start(alloc: Global, room: usize) -> Result<(Queue<T>, QueuePass<T>), AllocError>
        requires { 0 < room }
        ensures pass { IfOk result (λ made. IsQueuePassOf made.0 made.1) }
        ensures new { IfOk result (λ made. log_of made.1 ≡ first) }
        ensures room { IfOk result (λ made. room_of made.0 ≡ room) }
    {
        let (inner, pass) = RuledArrayQueue::ruled(alloc, room)?;
        Ok((Queue { inner }, QueuePass { pass }))
    }

    /// A second pass; each has one share then.
    pub fn share(&self, pass: &mut QueuePass<T>) -> QueuePass<T>
        requires own { IsQueuePassOf self.now pass.old }
        requires both { log_of pass.old ≡ first }
        ensures own { IsQueuePassOf self.now pass.new × IsQueuePassOf self.now result }
        ensures logs { (log_of pass.new ≡ kept first) × (log_of result ≡ given first) }
    {
        QueuePass {
            pass: self.inner.another::<Share>(&mut pass.pass),
        }
    }

    /// Pushes a value. It comes back only where the queue was full at one moment of this call.
    pub fn push<R: Wait>(&self, rt: &R, pass: &mut QueuePass<T>, value: T) -> Result<(), T>
        requires own { IsQueuePassOf self.now pass.old }
        ensures own { IsQueuePassOf self.now pass.new }
        ensures ok { OnOk result (log_of pass.new ≡ after_push (log_of pass.old) value) }
        ensures err { IfErr result (λ x. (x ≡ value) × (log_of pass.new ≡ log_of pass.old)) }
        ensures full { OnErr result (WasFull self.now (log_of pass.old)) }
    {
        self.inner.push_as::<Push, R>(rt, &mut pass.pass, value)
    }

    /// Pops the first value. Where the pass has both shares, the value is one that it pushed, and
    /// None comes only once all that it pushed was popped.
    pub fn pop<R: Wait>(&self, rt: &R, pass: &mut QueuePass<T>) -> Option<T>
        requires own { IsQueuePassOf self.now pass.old }
        ensures own { IsQueuePassOf self.now pass.new }
        ensures some { IfSome result (λ x. log_of pass.new ≡ after_pop (log_of pass.old) x) }
        ensures pushed { IfSome result (λ x. HasBoth (log_of pass.old)
            → Contains (log_of pass.old).pushed x) }
        ensures none { IfNone result (log_of pass.new ≡ log_of pass.old) }
        ensures all { IfNone result (HasBoth (log_of pass.old) → (test : T → Bool)
            → count_by test (log_of pass.old).popped ≡ count_by test (log_of pass.old).pushed) }
    {
        self.inner.pop_as::<Pop, R>(rt, &mut pass.pass)
    }

    /// Gives a pass what another pushed and popped, and its share.
    pub fn join(&self, pass: &mut QueuePass<T>, other: QueuePass<T>)
        requires own { IsQueuePassOf self.now pass.old }
        requires other { IsQueuePassOf self.now other }
        ensures own { IsQueuePassOf self.now pass.new }
        ensures joined { log_of pass.new ≡ joined (log_of pass.old) (log_of other) }
    {
        let QueuePass { pass: other } = other;
        self.inner.absorb::<Gather>(&mut pass.pass, other);
    }
}
