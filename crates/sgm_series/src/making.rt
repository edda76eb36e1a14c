//! What is made for the entries of a batch, before their turns.
ghost use Rattle.std.specs.Prelude.{◌≡◌, ◌<◌, ◌≤◌, ◌+◌, List, length, All, IsTrue, IfOk, IfErr};
ghost use Rattle.std.specs.Prelude.{OnOk};
ghost use Rattle.sgm_io.specs.Held.{Held};
ghost use Rattle.sgm_list.specs.Entries.{EntryNames};
ghost use Rattle.sgm_stages.specs.Ends.{StageCounts};
ghost use Rattle.sgm_stages.specs.Inputs.{InputBytes};
ghost use Rattle.sgm_stages.specs.Moments.{Keeps};
ghost use Rattle.sgm_stages.specs.Verdict.{Verdict};
ghost use Rattle.sgm_batch.specs.Pieces.{IsPieceOf};
ghost use Rattle.sgm_series.specs.declared.limits.TheConstants.{BATCH};
ghost use Rattle.sgm_series.specs.Answers.{AreAnswers};
ghost use Rattle.sgm_series.specs.Batches.{HasEntry, IsBatch, IsFetched, IsReadable, AreInputsAt};
ghost use Rattle.sgm_series.specs.Batches.{PlaceShown, PlaceCounts};
ghost use Rattle.sgm_series.specs.Plans.{AreVerdicts, EntryCallsFor};
ghost use Rattle.sgm_series.specs.Turned.{BatchCounts, BatchShown};
ghost use Rattle.sgm_series.specs.Stands.{batch_outcome, place_in, refused_at};

use crate::SeriesOutcome;
use crate::entries::operands_of;
use crate::limits::BATCH;
use crate::workshop::Workshop;
use sgm_app::{FetchStop, Input, Inputs, MadeTexts, Refusal, TextsError, gather};
use sgm_batch::{Piece, work_batch};
use sgm_io::Shelf;
use sgm_list::Entry;
use sgm_work::Gate;
use std::alloc::{AllocError, Global};
use std::sync::Wait;
use std::thread::Threads;

/// What is made for an entry: its texts, or why there are none.
pub type Answer = Result<MadeTexts, TextsError>;

/// Why nothing was made for a batch.
#[derive(Clone, Copy)]
pub enum BatchStop {
    /// An input of the entry at this place couldn't be read.
    Unread { place: usize, input: Input },
    NoMemory,
}

impl BatchStop {
    /// The outcome of a series that ends so, `first` being the number of the batch's first entry.
    pub fn outcome(self, first: usize) -> SeriesOutcome
        requires { first + place_in self ≤ 1000 }
        ensures { result ≡ batch_outcome first self }
    {
        match self {
            BatchStop::Unread { place, input } => SeriesOutcome::ReadFault {
                entry: (first + place) as u32,
                input,
            },
            BatchStop::NoMemory => SeriesOutcome::NoMemory,
        }
    }
}

/// What was fetched for a batch: the inputs of those entries of which none is too long, with the
/// entries' places, and an answer for each entry, which is want of memory until its piece is made.
#[derive(Drop)]
struct Batch {
    places: Vec<usize>,
    inputs: Vec<Inputs>,
    answers: Vec<Answer>,
}

/// What a stop of fetching the inputs of the entry at this place comes to: the entry's refusal, or
/// the batch's stop.
fn refused(place: usize, stop: FetchStop) -> Result<Refusal, BatchStop>
    ensures { result ≡ refused_at place stop }
{
    match stop {
        FetchStop::TooLong(input) => Ok(Refusal::TooLong(input)),
        FetchStop::Unread(input) => Err(BatchStop::Unread { place, input }),
        FetchStop::NoMemory => Err(BatchStop::NoMemory),
    }
}

/// The inputs of the entry at this place of the batch, or the refusal of the first that is too
/// long.
fn fetch_entry<S: Shelf>(
    alloc: Global,
    shelf: &mut S,
    place: usize,
    entry: &Entry,
) -> Result<Result<Inputs, Refusal>, BatchStop>
    ensures fetched { IsTrue S.tells → IfOk result (IsFetched entry.now (S.held shelf.old)) }
    ensures readable { IsTrue S.tells → OnOk result (IsReadable entry.now (S.held shelf.old)) }
    ensures stop { IsTrue S.tells → (v : Verdict) → EntryCallsFor entry.now (S.held shelf.old) v
        → IfErr result (PlaceShown place v) }
    ensures keeps { Keeps S.Shelf shelf.old shelf.new }
    ensures counts { StageCounts (PlaceCounts place entry.now) result S.Shelf shelf.old shelf.new }
{
    match gather(alloc, shelf, &operands_of(entry)) {
        Ok(inputs) => Ok(Ok(inputs)),
        Err(stop) => match refused(place, stop) {
            Ok(refusal) => Ok(Err(refusal)),
            Err(stop) => Err(stop),
        },
    }
}

/// Adds the next entry to a batch. After an error the batch is of no use.
fn add_entry(batch: &mut Batch, fetched: Result<Inputs, Refusal>) -> Result<(), AllocError>
    ensures { OnOk result (HasEntry fetched batch.old batch.new) }
{
    match fetched {
        Ok(inputs) => {
            batch.places.push(batch.answers.len())?;
            batch.inputs.push(inputs)?;
            batch.answers.push(Err(TextsError::NoMemory))?;
        }
        Err(refusal) => batch.answers.push(Err(TextsError::Refused(refusal)))?,
    }
    Ok(())
}

/// Fetches the inputs of all entries in their order, until one can't be read.
fn fetch_batch<S: Shelf>(
    alloc: Global,
    shelf: &mut S,
    entries: &[Entry],
) -> Result<Batch, BatchStop>
    ensures batch { IfOk result (IsBatch (length entries.now)) }
    ensures answers { IsTrue S.tells
        → IfOk result (λ batch. AreAnswers entries.now (S.held shelf.old) batch.answers.items) }
    ensures inputs { IsTrue S.tells
        → IfOk result
        (λ batch. AreInputsAt entries.now
        (S.held shelf.old) batch.places.items batch.inputs.items) }
    ensures stop { IsTrue S.tells → (verdicts : List Verdict)
        → AreVerdicts entries.now (S.held shelf.old) verdicts
        → IfErr result (BatchShown verdicts) }
    ensures keeps { Keeps S.Shelf shelf.old shelf.new }
    ensures counts { StageCounts (BatchCounts entries.now) result S.Shelf shelf.old shelf.new }
{
    let mut batch = Batch {
        places: Vec::new(alloc),
        inputs: Vec::new(alloc),
        answers: Vec::new(alloc),
    };
    for (place, entry) in entries.iter().enumerate() {
        match fetch_entry(alloc, shelf, place, entry) {
            Ok(fetched) => match add_entry(&mut batch, fetched) {
                Ok(()) => {}
                Err(_) => return Err(BatchStop::NoMemory),
            },
            Err(stop) => return Err(stop),
        }
    }
    Ok(batch)
}

/// Each piece becomes the answer of the entry at the place of its inputs.
fn place_pieces(places: &[usize], pieces: Vec<Piece>, answers: &mut [Answer])
    requires pieces { All (λ piece. piece.entry < length places.now) pieces.items }
    requires places { All (λ place. place < length answers.old) places.now }
    ensures count { length answers.new ≡ length answers.old }
    ensures answers { (entries : List EntryNames) (held : Held) (inputs : List InputBytes)
        → AreInputsAt entries held places.now inputs → All (IsPieceOf inputs) pieces.items
        → AreAnswers entries held answers.old → AreAnswers entries held answers.new }
{
    for piece in pieces {
        let place = places[piece.entry() as usize];
        answers[place] = piece.into_made();
    }
}

/// The answers of a batch whose inputs are fetched.
fn make_pieces<R: Threads + Wait + Sync, G: Gate + Sync>(
    workshop: &Workshop<'_, R, G>,
    batch: Batch,
    workers: u32,
) -> Result<Vec<Answer>, AllocError>
    requires few { length batch.inputs.items ≤ BATCH }
    requires workers { (1 ≤ workers) × (workers ≤ 2) }
    requires pairs { length batch.places.items ≡ length batch.inputs.items }
    requires places { All (λ place. place < length batch.answers.items) batch.places.items }
    ensures count { IfOk result (λ answers. length answers.items ≡ length batch.answers.items) }
    ensures answers { (entries : List EntryNames) (held : Held)
        → AreInputsAt entries held batch.places.items batch.inputs.items
        → AreAnswers entries held batch.answers.items
        → IfOk result (λ answers. AreAnswers entries held answers.items) }
{
    let Batch {
        places,
        inputs,
        mut answers,
    } = batch;
    if inputs.is_empty() {
        return Ok(answers);
    }
    let pieces = work_batch(workshop.rt, workshop.alloc, &inputs, workers, workshop.gate)?;
    place_pieces(&places, pieces, &mut answers);
    Ok(answers)
}

/// The answers of the entries of a batch: their inputs are fetched in order, and their texts made
/// by so many workers. Nothing is made where an input couldn't be read.
pub fn make_batch<R: Threads + Wait + Sync, S: Shelf, G: Gate + Sync>(
    workshop: &Workshop<'_, R, G>,
    entries: &[Entry],
    workers: u32,
    shelf: &mut S,
) -> Result<Vec<Answer>, BatchStop>
    requires few { length entries.now ≤ BATCH }
    requires workers { (1 ≤ workers) × (workers ≤ 2) }
    ensures answers { IsTrue S.tells
        → IfOk result (λ answers. AreAnswers entries.now (S.held shelf.old) answers.items) }
    ensures count { IfOk result (λ answers. length answers.items ≡ length entries.now) }
    ensures stop { IsTrue S.tells → (verdicts : List Verdict)
        → AreVerdicts entries.now (S.held shelf.old) verdicts
        → IfErr result (BatchShown verdicts) }
    ensures keeps { Keeps S.Shelf shelf.old shelf.new }
    ensures counts { StageCounts (BatchCounts entries.now) result S.Shelf shelf.old shelf.new }
{
    match fetch_batch(workshop.alloc, shelf, entries) {
        Ok(batch) => match make_pieces(workshop, batch, workers) {
            Ok(answers) => Ok(answers),
            Err(_) => Err(BatchStop::NoMemory),
        },
        Err(stop) => Err(stop),
    }
}
