//! What a worker does.
ghost use Rattle.std.specs.Prelude.{◌≡◌, ◌<◌, length};
ghost use Rattle.sgm_draws.specs.Tickets.{parts_of};
ghost use Rattle.sgm_queue.specs.Queues.{log_of};
ghost use Rattle.sgm_batch.specs.Batches.{CanWork, Covers, HasPiece, IsAtWork, IsDone, IsJob};
ghost use Rattle.sgm_batch.specs.Batches.{IsSameWorker};

use crate::piece::Piece;
use sgm_app::Inputs;
use sgm_draws::{Draws, Ticket};
use sgm_queue::{Queue, QueuePass};
use sgm_work::{Came, Gate, come};
use std::alloc::Global;
use std::sync::Wait;
use std::thread::Threads;

/// A worker's own place: what it draws with, whose number is the worker's, what it pushes with, and
/// by entry the pieces that the queue didn't take.
#[derive(Drop)]
pub struct Worker {
    pub ticket: Ticket,
    pub pass: QueuePass<Piece>,
    pub kept: Vec<Option<Piece>>,
}

/// What all workers share: the inputs, the numbers of the entries, and the queue for the pieces.
#[derive(Clone, Copy)]
pub struct Job<'a> {
    pub inputs: &'a [Inputs],
    pub draws: &'a Draws,
    pub queue: &'a Queue<Piece>,
}

/// Makes the piece of the entry with which the worker came to the gate, and pushes or keeps it.
fn hand_on<R: Threads + Wait + Sync, G>(
    rt: &R,
    alloc: Global,
    job: &Job<'_>,
    worker: &mut Worker,
    came: Came<G>,
)
    requires worker { came.worker ≡ (parts_of worker.old.ticket).number }
    requires inside { came.task < length job.now.inputs.now }
    requires at_work { IsAtWork job.now worker.old }
    ensures at_work { IsAtWork job.now worker.new }
    ensures same_ticket { worker.new.ticket ≡ worker.old.ticket }
    ensures same_shares { (log_of worker.new.pass).shares ≡ (log_of worker.old.pass).shares }
    ensures piece { HasPiece worker.new came.task }
    ensures pieces { Covers worker.old worker.new }
{
    let entry = came.task() as usize;
    let piece = Piece::make(rt, alloc, &job.inputs[entry], came);
    if let Err(piece) = job.queue.push(rt, &mut worker.pass, piece) {
        worker.kept[entry] = Some(piece);
    }
}

/// Draws entries until there is none left, comes to the gate with each, and then makes its piece.
pub fn work<R: Threads + Wait + Sync, G: Gate>(
    rt: &R,
    alloc: Global,
    job: &Job<'_>,
    worker: &mut Worker,
    gate: &G,
)
    requires job { IsJob job.now }
    requires can_work { CanWork job.now worker.old }
    ensures done { IsDone job.now worker.new }
    ensures same { IsSameWorker worker.old worker.new }
{
    for _ in rt.forever() {
        let Some(entry) = job.draws.draw(&mut worker.ticket) else {
            return;
        };
        let came = come(gate, worker.ticket.number(), entry);
        hand_on(rt, alloc, job, worker, came);
    }
}
