//! Pieces that are made side by side: each thread makes the next one that no thread has begun.

ghost use Rattle.std.specs.Prelude.{◌≡◌, ◌<◌, ℕ, All, IfOk, IfSome, EachIndex, length};
ghost use Rattle.std.specs.Prelude.{None, Some, map, slice_index_or};
ghost use Rattle.std.specs.Option.{option_or};
ghost use Rattle.sgm_threads.specs.Sharing.{AreMade, AreOwn};

use crate::places::empty_places;
use crate::starting::in_threads;
use std::alloc::{AllocError, Global};
use std::sync::atomic::{AtomicUsize, Ordering};
use std::thread::Threads;

/// Hands out each number below a count once.
#[derive(Drop)]
struct Numbers {
    next: AtomicUsize,
    count: usize,
}

impl Numbers {
    fn below(count: usize) -> Numbers
        ensures { result.count ≡ count }
    {
        Numbers {
            next: AtomicUsize::new(0),
            count,
        }
    }

    /// The next number; None where all are handed out.
    fn take(&self) -> Option<usize>
        ensures { IfSome result (λ number. number < self.now.count) }
    {
        let number = self.next.fetch_add(1, Ordering::Relaxed);
        if number < self.count {
            Some(number)
        } else {
            None
        }
    }
}

/// What one thread makes, each piece in its place among all.
fn own_pieces<X: Drop, F: Fn(usize) -> Option<X>>(
    alloc: Global,
    numbers: &Numbers,
    make: &F,
) -> Result<Vec<Option<X>>, AllocError>
    requires accepts { (k : ℕ) → k < numbers.now.count → F.pre make.now k }
    ensures { IfOk result (AreOwn F.Fn make.now numbers.now.count) }
{
    let mut own = empty_places(alloc, numbers.count)?;
    for _ in 0..numbers.count {
        let Some(number) = numbers.take() else {
            break;
        };
        let Some(piece) = make(number) else {
            return Err(AllocError);
        };
        own[number] = Some(piece);
    }
    Ok(own)
}

/// Moves a piece that one thread made to its place among those of all.
fn put_one<X: Drop>(own: &mut Option<X>, place: &mut Option<X>)
    ensures { place.new ≡ option_or own.old place.old }
{
    if let Some(piece) = own.take() {
        *place = Some(piece);
    }
}

/// Moves all pieces that one thread made.
fn put_own<X: Drop>(mut own: Vec<Option<X>>, places: &mut [Option<X>])
    requires { length own.items ≡ length places.old }
    ensures count { length places.new ≡ length places.old }
    ensures each { EachIndex places.new (λ k. slice_index_or places.new k None
        ≡ option_or (slice_index_or own.items k None) (slice_index_or places.old k None)) }
{
    for k in 0..places.len() {
        put_one(&mut own[k], &mut places[k]);
    }
}

/// What is in the places; an error where one is empty.
fn all_of<X: Drop>(alloc: Global, places: Vec<Option<X>>) -> Result<Vec<X>, AllocError>
    ensures { IfOk result (λ all. map Some all.items ≡ places.items) }
{
    let mut all = Vec::with_capacity(alloc, places.len())?;
    for place in places {
        match place {
            Some(value) => all.push(value)?,
            None => return Err(AllocError),
        }
    }
    Ok(all)
}

/// What each of at most so many threads makes, until all numbers are handed out; None where one got
/// no memory.
fn crew_pieces<R: Threads + Sync, X: Send + Drop, F: Fn(usize) -> Option<X> + Sync>(
    rt: &R,
    alloc: Global,
    count: usize,
    threads: usize,
    make: &F,
) -> Result<Vec<Option<Vec<Option<X>>>>, AllocError>
    requires accepts { (k : ℕ) → k < count → F.pre make.now k }
    ensures { IfOk result
        (λ crew. All (λ own. IfSome own (AreOwn F.Fn make.now count)) crew.items) }
{
    let numbers = Numbers::below(count);
    let mut crew = empty_places(alloc, threads.min(count))?;
    in_threads(
        rt,
        &|_, own: &mut Option<Vec<Option<X>>>|
            requires { (k : ℕ) → k < numbers.count → F.pre make.now k }
            ensures { IfSome own.new (AreOwn F.Fn make.entry.now numbers.count) }
        { *own = own_pieces(alloc, &numbers, make).ok() },
        crew.as_mut_slice(),
    );
    Ok(crew)
}

/// The pieces of all numbers below `count`, as `make` gives them, made by at most so many threads.
/// An error where it gives none, or there is no other memory.
pub fn side_by_side<R: Threads + Sync, X: Send + Drop, F: Fn(usize) -> Option<X> + Sync>(
    rt: &R,
    alloc: Global,
    count: usize,
    threads: usize,
    make: &F,
) -> Result<Vec<X>, AllocError>
    requires threads { 0 < threads }
    requires accepts { (k : ℕ) → k < count → F.pre make.now k }
    ensures count { IfOk result (λ all. length all.items ≡ count) }
    ensures made { IfOk result (λ all. AreMade F.Fn make.now all.items) }
{
    let crew = crew_pieces(rt, alloc, count, threads, make)?;
    let mut places = empty_places(alloc, count)?;
    for own in crew {
        let Some(own) = own else {
            return Err(AllocError);
        };
        put_own(own, places.as_mut_slice());
    }
    all_of(alloc, places)
}
