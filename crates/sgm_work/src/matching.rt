//! All workers on one board.
ghost use Rattle.std.specs.Prelude.{◌≡◌, ◌*◌, ◌<◌, ◌≤◌, ℕ, map, length, All, IfOk, slice_index_or};
ghost use Rattle.std.specs.Prelude.{vec_len};
ghost use Rattle.crossbeam_utils.specs.declared.cache_padded.CachePadded.{CachePadded};
ghost use Rattle.crossbeam_utils.specs.Padded.{padded_value};
ghost use Rattle.sgm_base.specs.declared.limits.TheConstants.{MAX_WORKERS};
ghost use Rattle.sgm_strip.specs.Cuts.{CutParts};
ghost use Rattle.sgm_strip.specs.Scenes.{SceneParts};
ghost use Rattle.sgm_strip.specs.Strips.{AreComplete};
ghost use Rattle.sgm_board.specs.Ready.{AreReady};
ghost use Rattle.sgm_board.specs.Boards.{parts_of};
ghost use Rattle.sgm_work.specs.Finished.{AreFinished};
ghost use Rattle.sgm_work.specs.Worked.{IsSamePass};
ghost use Rattle.sgm_work.specs.declared.matching.Worker.{Worker};
ghost use Rattle.sgm_work.specs.Crews.{AllCanWork, CanWork, GathersFrom, pass_of, room_of};

use crate::finishing::finish;
use crate::gate::Gate;
use crate::working::work;
use crossbeam_utils::CachePadded;
use sgm_base::{Size, Span};
use sgm_board::{Board, Pass};
use sgm_strip::{Front, Parcel, Row};
use sgm_threads::in_threads;
use std::alloc::{AllocError, Global};
use std::thread::Threads;

/// What the matching of a scene ends with.
#[derive(Drop)]
pub struct Matched {
    /// Those of all strips, in order.
    pub parcels: Vec<Parcel>,
    /// The six, in order.
    pub fronts: Vec<Front>,
}

/// What a worker works with: its pass to the board, and room for a row.
#[derive(Drop)]
struct Worker {
    pass: Pass,
    spare: Row,
}

/// A worker for each pass. No two have a cache line in common.
fn crew_of(
    alloc: Global,
    passes: Vec<Pass>,
    size: Size,
    span: Span,
) -> Result<Vec<CachePadded<Worker>>, AllocError>
    ensures passes { IfOk result (λ crew. map pass_of crew.items ≡ passes.items) }
    ensures rooms { IfOk result
        (λ crew. All (λ worker. room_of worker ≡ size.width * span.count) crew.items) }
{
    let mut crew = Vec::with_capacity(alloc, passes.len())?;
    for pass in passes {
        let spare = Row::make(alloc, size, span)?;
        crew.push(CachePadded::new(Worker { pass, spare }))?;
    }
    Ok(crew)
}

/// One worker at work.
fn run<G: Gate>(board: &Board, worker: &mut CachePadded<Worker>, gate: &G)
    requires { CanWork board.now (padded_value worker.old) }
    ensures can_work { CanWork board.now (padded_value worker.new) }
    ensures same { IsSamePass (parts_of (pass_of worker.old)) (parts_of (pass_of worker.new)) }
{
    let worker: &mut Worker = worker;
    work(board, &mut worker.pass, &mut worker.spare, gate);
}

/// All workers at work, each in a thread of its own where one can be made.
fn run_all<R: Threads + Sync, G: Gate + Sync>(
    rt: &R,
    board: &Board,
    crew: &mut [CachePadded<Worker>],
    gate: &G,
)
    requires some { 0 < length crew.old }
    requires can_work { AllCanWork board.now crew.old }
    ensures count { length crew.new ≡ length crew.old }
    ensures can_work { AllCanWork board.now crew.new }
    ensures same { (k : ℕ) (d : CachePadded Worker) → k < length crew.old
        → IsSamePass (parts_of (pass_of (slice_index_or crew.old k d)))
        (parts_of (pass_of (slice_index_or crew.new k d))) }
{
    in_threads(rt, &|_, worker| run(board, worker, gate), crew);
}

/// One of the workers, whose pass is joined with those of all others.
fn gather(board: &Board, mut crew: Vec<CachePadded<Worker>>) -> Worker
    requires some { 0 < vec_len crew }
    requires can_work { AllCanWork board.now crew.items }
    ensures can_work { CanWork board.now result }
    ensures all { All
        (λ worker. GathersFrom (parts_of (pass_of worker)) (parts_of result.pass)) crew.items }
{
    let Some(last) = crew.pop() else {
        unreachable!()
    };
    let mut whole = last.into_inner();
    for other in crew {
        board.join(&mut whole.pass, other.into_inner().pass);
    }
    whole
}

/// Hands each front through all strips, by so many workers, at most [`sgm_base::MAX_WORKERS`]: each
/// works on a board in a thread of its own where one can be made, and what they leave is done at
/// the end. The parcels and the fronts are as [`Board::start`] takes them. An error comes before a
/// worker starts, and all is then dropped.
pub fn match_all<R: Threads + Sync, G: Gate + Sync>(
    rt: &R,
    alloc: Global,
    parcels: Vec<Parcel>,
    fronts: Vec<Front>,
    workers: u32,
    gate: &G,
) -> Result<Matched, AllocError>
    requires ready { (scene : SceneParts) × (cut : CutParts)
        × AreReady scene cut parcels.items fronts.items }
    requires workers { (1 ≤ workers) × (workers ≤ MAX_WORKERS) }
    ensures finished { (scene : SceneParts) (cut : CutParts)
        → AreReady scene cut parcels.items fronts.items
        → IfOk result
        (λ matched. AreFinished scene cut matched.parcels.items matched.fronts.items) }
    ensures complete { (scene : SceneParts) (cut : CutParts)
        → AreReady scene cut parcels.items fronts.items
        → IfOk result (λ matched. AreComplete scene matched.parcels.items) }
{
    let first = &parcels[0];
    let (size, span) = (first.size(), first.span());
    let (board, passes) = Board::start(alloc, parcels, fronts, workers)?;
    let mut crew = crew_of(alloc, passes, size, span)?;
    run_all(rt, &board, crew.as_mut_slice(), gate);
    let Worker { pass, mut spare } = gather(&board, crew);
    let (mut parcels, mut fronts) = board.close(pass);
    finish(parcels.as_mut_slice(), fronts.as_mut_slice(), &mut spare);
    Ok(Matched { parcels, fronts })
}
