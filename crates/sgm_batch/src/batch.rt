//! The batch.
ghost use Rattle.std.specs.Prelude.{◌≡◌, ◌≤◌, ◌<◌, ℕ, [], map, None, Some, IfOk};
ghost use Rattle.std.specs.Prelude.{All, length, slice_get, slice_index_or};
ghost use Rattle.std.specs.Prelude.{vec_capacity, vec_len};
ghost use Rattle.sgm_draws.specs.Tickets.{AreNew, IsTicketOf, new_ticket, parts_of, tickets_of};
ghost use Rattle.sgm_draws.specs.declared.limits.TheConstants.{MAX_NUMBERS, MAX_TICKETS};
ghost use Rattle.sgm_queue.specs.Queues.{HasBoth, IsQueuePassOf, log_of};
ghost use Rattle.sgm_queue.specs.Logs.{first, log};
ghost use Rattle.sgm_batch.specs.Pieces.{PieceParts, IsPieceOf};
ghost use Rattle.sgm_batch.specs.Batches.{AreAll, AreAllOf, ArePlaced, CanWork, HasEach, IsAtWork};
ghost use Rattle.sgm_batch.specs.Batches.{IsDone, IsJob, IsJoined, IsSameWorker, chosen};
ghost use Rattle.sgm_batch.specs.declared.worker.Worker.{Worker};

use crate::piece::Piece;
use crate::worker::{Job, Worker, work};
use sgm_app::Inputs;
use sgm_draws::{Draws, Ticket};
use sgm_queue::{Queue, QueuePass};
use sgm_threads::empty_places;
use sgm_work::Gate;
use std::alloc::{AllocError, Global};
use std::sync::Wait;
use std::thread::{Threads, for_each_mut};

/// A worker that has made no step.
fn worker_of(
    alloc: Global,
    job: &Job<'_>,
    ticket: Ticket,
    pass: QueuePass<Piece>,
) -> Result<Worker, AllocError>
    requires job { IsJob job.now × (0 < length job.now.inputs.now) }
    requires ticket { IsTicketOf job.now.draws.now ticket
        × (parts_of ticket ≡ new_ticket (parts_of ticket).number) }
    requires pass { IsQueuePassOf job.now.queue.now pass
        × (log_of pass ≡ log (log_of pass).shares [] []) }
    ensures can_work { IfOk result (CanWork job.now) }
    ensures shares { IfOk result (λ worker. (log_of worker.pass).shares ≡ (log_of pass).shares) }
    ensures gathered { IfOk result (λ worker. (parts_of worker.ticket).gathered
        ≡ (parts_of ticket).gathered) }
{
    let kept = empty_places(alloc, job.inputs.len())?;
    Ok(Worker { ticket, pass, kept })
}

/// The only worker.
fn one_worker(
    alloc: Global,
    job: &Job<'_>,
    ticket: Ticket,
    pass: QueuePass<Piece>,
) -> Result<Vec<Worker>, AllocError>
    requires job { IsJob job.now × (0 < length job.now.inputs.now)
        × (tickets_of job.now.draws.now ≡ 1) }
    requires ticket { IsTicketOf job.now.draws.now ticket × (parts_of ticket ≡ new_ticket 0) }
    requires pass { IsQueuePassOf job.now.queue.now pass × (log_of pass ≡ first) }
    ensures can_work { IfOk result (λ crew. All (CanWork job.now) crew.items) }
    ensures all { IfOk result (λ crew. AreAllOf job.now crew.items) }
    ensures some { IfOk result (λ crew. 0 < vec_len crew) }
{
    let worker = worker_of(alloc, job, ticket, pass)?;
    let mut crew = Vec::with_capacity(alloc, 1)?;
    crew.push_reserved(worker);
    Ok(crew)
}

/// Two workers, each with one share of the queue.
fn two_workers(
    alloc: Global,
    job: &Job<'_>,
    one: Ticket,
    other: Ticket,
    mut pass: QueuePass<Piece>,
) -> Result<Vec<Worker>, AllocError>
    requires job { IsJob job.now × (0 < length job.now.inputs.now)
        × (tickets_of job.now.draws.now ≡ 2) }
    requires one { IsTicketOf job.now.draws.now one × (parts_of one ≡ new_ticket 0) }
    requires other { IsTicketOf job.now.draws.now other × (parts_of other ≡ new_ticket 1) }
    requires pass { IsQueuePassOf job.now.queue.now pass × (log_of pass ≡ first) }
    ensures can_work { IfOk result (λ crew. All (CanWork job.now) crew.items) }
    ensures all { IfOk result (λ crew. AreAllOf job.now crew.items) }
    ensures some { IfOk result (λ crew. 0 < vec_len crew) }
{
    let share = job.queue.share(&mut pass);
    let one = worker_of(alloc, job, one, pass)?;
    let other = worker_of(alloc, job, other, share)?;
    let mut crew = Vec::with_capacity(alloc, 2)?;
    crew.push_reserved(one);
    crew.push_reserved(other);
    Ok(crew)
}

/// A worker for each ticket.
fn crew_of(
    alloc: Global,
    job: &Job<'_>,
    mut tickets: Vec<Ticket>,
    pass: QueuePass<Piece>,
) -> Result<Vec<Worker>, AllocError>
    requires job { IsJob job.now × (0 < length job.now.inputs.now) }
    requires count { (vec_len tickets ≡ tickets_of job.now.draws.now) × (1 ≤ vec_len tickets)
        × (vec_len tickets ≤ MAX_TICKETS) }
    requires tickets { AreNew job.now.draws.now tickets.items }
    requires pass { IsQueuePassOf job.now.queue.now pass × (log_of pass ≡ first) }
    ensures can_work { IfOk result (λ crew. All (CanWork job.now) crew.items) }
    ensures all { IfOk result (λ crew. AreAllOf job.now crew.items) }
    ensures some { IfOk result (λ crew. 0 < vec_len crew) }
{
    let Some(last) = tickets.pop() else {
        unreachable!()
    };
    match tickets.pop() {
        None => one_worker(alloc, job, last, pass),
        Some(first) => two_workers(alloc, job, first, last, pass),
    }
}

/// All workers at work, each in a thread of its own where one can be made.
fn run_all<R: Threads + Wait + Sync, G: Gate + Sync>(
    rt: &R,
    alloc: Global,
    job: &Job<'_>,
    crew: &mut [Worker],
    gate: &G,
)
    requires some { 0 < length crew.old }
    requires job { IsJob job.now }
    requires can_work { All (CanWork job.now) crew.old }
    ensures count { length crew.new ≡ length crew.old }
    ensures done { All (IsDone job.now) crew.new }
    ensures same { (k : ℕ) (d : Worker) → k < length crew.old
        → IsSameWorker (slice_index_or crew.old k d) (slice_index_or crew.new k d) }
{
    let threads = crew.len();
    for_each_mut(
        rt,
        crew,
        threads,
        &|_, worker|
            requires job { IsJob job.now }
            requires can_work { CanWork job.now worker.old }
        { work(rt, alloc, job, worker, gate) },
    );
}

/// What was kept for a place goes there.
fn take_over(places: &mut [Option<Piece>], mut kept: Vec<Option<Piece>>)
    requires count { vec_len kept ≡ length places.old }
    ensures count { length places.new ≡ length places.old }
    ensures each { (place : ℕ)
        → slice_get places.new place
        ≡ chosen (slice_get kept.items place) (slice_get places.old place) }
{
    for place in 0..kept.len() {
        if let Some(piece) = kept[place].take() {
            places[place] = Some(piece);
        }
    }
}

/// A worker with what two have.
fn join(job: &Job<'_>, whole: &mut Worker, other: Worker)
    requires done { IsDone job.now whole.old × IsDone job.now other }
    ensures done { IsDone job.now whole.new }
    ensures joined { IsJoined whole.old other whole.new }
{
    let Worker { ticket, pass, kept } = other;
    job.draws.join(&mut whole.ticket, ticket);
    job.queue.join(&mut whole.pass, pass);
    take_over(whole.kept.as_mut_slice(), kept);
}

/// One worker with what all have.
fn gather(job: &Job<'_>, mut crew: Vec<Worker>) -> Worker
    requires some { 0 < vec_len crew }
    requires job { IsJob job.now }
    requires done { All (IsDone job.now) crew.items }
    requires all { AreAllOf job.now crew.items }
    ensures at_work { IsAtWork job.now result }
    ensures both { HasBoth (log_of result.pass) }
    ensures each { HasEach job.now result }
{
    let Some(mut whole) = crew.pop() else {
        unreachable!()
    };
    for other in crew {
        join(job, &mut whole, other);
    }
    whole
}

/// Pops all pieces, and puts each at the place of its entry.
fn pop_all<R: Wait>(rt: &R, job: &Job<'_>, worker: &mut Worker)
    requires at_work { IsAtWork job.now worker.old }
    requires both { HasBoth (log_of worker.old.pass) }
    requires each { HasEach job.now worker.old }
    ensures count { vec_len worker.new.kept ≡ length job.now.inputs.now }
    ensures placed { ArePlaced job.now.inputs.now worker.new.kept.items }
    ensures all { AreAll worker.new.kept.items }
{
    for _ in rt.forever() {
        let Some(piece) = job.queue.pop(rt, &mut worker.pass) else {
            return;
        };
        let place = piece.entry() as usize;
        worker.kept[place] = Some(piece);
    }
}

/// The pieces of all places, none of which is empty.
fn collect(places: Vec<Option<Piece>>, mut pieces: Vec<Piece>) -> Vec<Piece>
    requires all { AreAll places.items }
    requires empty { pieces.items ≡ [] }
    requires room { vec_len places ≤ vec_capacity pieces }
    ensures all { map Some result.items ≡ places.items }
{
    for piece in places {
        let Some(piece) = piece else { unreachable!() };
        pieces.push_reserved(piece);
    }
    pieces
}

/// A piece for each of the inputs, in their order, made by so many workers: each draws entries
/// until none is left, comes to the gate with each, and makes its piece in one strip. At most
/// [`sgm_draws::MAX_NUMBERS`] inputs and [`sgm_draws::MAX_TICKETS`] workers. An error comes before
/// a worker starts.
pub fn work_batch<R: Threads + Wait + Sync, G: Gate + Sync>(
    rt: &R,
    alloc: Global,
    inputs: &[Inputs],
    workers: u32,
    gate: &G,
) -> Result<Vec<Piece>, AllocError>
    requires inputs { (1 ≤ length inputs.now) × (length inputs.now ≤ MAX_NUMBERS) }
    requires workers { (1 ≤ workers) × (workers ≤ MAX_TICKETS) }
    ensures count { IfOk result (λ pieces. vec_len pieces ≡ length inputs.now) }
    ensures each { IfOk result (λ pieces. (entry : ℕ) (piece : PieceParts)
        → slice_get pieces.items entry ≡ Some piece
        → (piece.entry ≡ entry) × IsPieceOf inputs.now piece) }
{
    let count = inputs.len();
    let pieces = Vec::with_capacity(alloc, count)?;
    let (draws, tickets) = Draws::start(alloc, count as u32, workers)?;
    let (queue, pass) = Queue::start(alloc, count)?;
    let job = Job {
        inputs,
        draws: &draws,
        queue: &queue,
    };
    let mut crew = crew_of(alloc, &job, tickets, pass)?;
    run_all(rt, alloc, &job, crew.as_mut_slice(), gate);
    let mut whole = gather(&job, crew);
    pop_all(rt, &job, &mut whole);
    let Worker {
        ticket: _,
        pass: _,
        kept,
    } = whole;
    Ok(collect(kept, pieces))
}
