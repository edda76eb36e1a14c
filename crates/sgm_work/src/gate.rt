//! Where a worker may be held.
ghost use Rattle.std.specs.Prelude.{◌≡◌};

use std::marker::PhantomData;

/// A place that each worker comes to with each strip that it claims, before it tries a front there.
/// All workers share it. It answers nothing, so it changes nothing of the work.
pub trait Gate {
    /// The worker, by its number, has claimed this strip.
    fn at(&self, worker: u32, strip: u32);
}

/// A gate that holds nobody.
#[derive(Clone, Copy, PartialEq, Eq)]
pub struct OpenGate;

impl Gate for OpenGate {
    fn at(&self, _worker: u32, _strip: u32) {}
}

/// That a worker has come to a gate of this type with a task: a strip, or an entry of a batch. Only
/// [`come`] makes one, so what asks for one is done after the gate.
#[derive(Drop)]
pub struct Came<G> {
    worker: u32,
    task: u32,
    gate: PhantomData<G>,
}

impl<G> Came<G> {
    /// The number of the worker.
    pub fn worker(&self) -> u32
        ensures { result ≡ self.now.worker }
    {
        self.worker
    }

    /// The number of the task.
    pub fn task(&self) -> u32
        ensures { result ≡ self.now.task }
    {
        self.task
    }
}

/// The worker comes to the gate with the task, and has come once the gate lets it go.
pub fn come<G: Gate>(gate: &G, worker: u32, task: u32) -> Came<G>
    ensures worker { result.worker ≡ worker }
    ensures task { result.task ≡ task }
{
    gate.at(worker, task);
    Came {
        worker,
        task,
        gate: PhantomData,
    }
}
