//! A gate at which workers wait for each other.

use sgm_work::Gate;
use std::array;
use std::sync::atomic::{AtomicU64, Ordering};
use std::thread::yield_now;

/// The most workers that meet.
const WORKERS: usize = 3;

/// How many turns a worker waits for the others: about a second on a free processor, and less than
/// the minute of a test on a loaded one.
const TURNS: u64 = 1_000_000;

/// Holds each of so many workers, at most three, at its first strip or entry until all have come,
/// for at most a million turns.
#[derive(Drop)]
pub struct Meeting {
    workers: u32,
    // By worker, a bit for each strip or entry below 64 with which it came.
    come: [AtomicU64; WORKERS],
    ended: AtomicU64,
}

impl Meeting {
    /// A meeting of so many workers.
    pub fn of(workers: u32) -> Meeting {
        Meeting {
            workers,
            come: array::from_fn(|_| AtomicU64::new(0)),
            ended: AtomicU64::new(0),
        }
    }

    /// The strips or entries with which a worker came.
    fn places_of(&self, worker: u32) -> u64 {
        match self.come.get(worker as usize) {
            Some(places) => places.load(Ordering::SeqCst),
            None => 0,
        }
    }

    fn have_all_come(&self) -> bool {
        (0..self.workers).all(|worker| self.places_of(worker) > 0)
    }

    /// Whether the worker came with this strip or entry.
    pub fn has_come(&self, worker: u32, place: u32) -> bool {
        self.places_of(worker) & bit_of(place) > 0
    }

    /// Whether all workers came, and none was let go before the others did.
    pub fn has_met(&self) -> bool {
        self.have_all_come() && self.ended.load(Ordering::SeqCst) == 0
    }

    fn hold(&self) {
        for _turn in 0..TURNS {
            if self.have_all_come() {
                return;
            }
            yield_now();
        }
        self.ended.store(1, Ordering::SeqCst);
    }
}

fn bit_of(place: u32) -> u64 {
    1 << (place % 64)
}

impl Gate for Meeting {
    fn at(&self, worker: u32, place: u32) {
        if let Some(places) = self.come.get(worker as usize)
            && places.fetch_or(bit_of(place), Ordering::SeqCst) == 0
        {
            self.hold();
        }
    }
}
