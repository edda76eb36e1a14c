//! A gate that remembers who came.

use sgm_work::Gate;
use std::array;
use std::sync::atomic::{AtomicU64, Ordering};
use std::thread::yield_now;

/// As many calls are remembered.
const CALLS: usize = 16;

/// How many turns the first comer stays for another: about a second on a free processor.
const TURNS: u64 = 1_000_000;

/// Stands for a call that didn't come.
const NONE: u64 = u64::MAX;

/// What comes where one worker hands all fronts on through three strips: it goes through these
/// three times, since a front that goes up passes one strip each time.
pub const ONE_AT_THREE: [(u32, u32); 9] = [
    (0, 0),
    (0, 1),
    (0, 2),
    (0, 0),
    (0, 1),
    (0, 2),
    (0, 0),
    (0, 1),
    (0, 2),
];

/// Remembers its first sixteen calls in their order. The first comer is held until another worker
/// has come, for at most a million turns, so that one that there shouldn't be has the time to come.
#[derive(Drop)]
pub struct Recorder {
    calls: AtomicU64,
    others: AtomicU64,
    // 2 ^ 32 times the worker, and its strip or its entry.
    comers: [AtomicU64; CALLS],
}

impl Recorder {
    /// A recorder to which nobody has come.
    pub fn new() -> Recorder {
        Recorder {
            calls: AtomicU64::new(0),
            others: AtomicU64::new(0),
            comers: array::from_fn(|_| AtomicU64::new(NONE)),
        }
    }

    /// Whether so many calls came, and each in its turn is that of this worker at this strip or
    /// entry.
    pub fn has(&self, wanted: &[(u32, u32)]) -> bool {
        self.calls.load(Ordering::SeqCst) == wanted.len() as u64
            && wanted.len() <= CALLS
            && self.comers.iter().zip(wanted).all(|(comer, wanted)| comer.load(Ordering::SeqCst)
                == comer_of(*wanted))
    }

    fn stay(&self) {
        for _turn in 0..TURNS {
            if self.others.load(Ordering::SeqCst) > 0 {
                return;
            }
            yield_now();
        }
    }
}

fn comer_of((worker, place): (u32, u32)) -> u64 {
    (u64::from(worker) << 32) | u64::from(place)
}

impl Gate for Recorder {
    fn at(&self, worker: u32, place: u32) {
        if worker > 0 {
            self.others.store(1, Ordering::SeqCst);
        }
        let call = self.calls.fetch_add(1, Ordering::SeqCst);
        if let Some(comer) = self.comers.get(call as usize) {
            comer.store(comer_of((worker, place)), Ordering::SeqCst);
        }
        if call == 0 {
            self.stay();
        }
    }
}
