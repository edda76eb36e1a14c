ghost use Rattle.std.specs.Prelude.{◌≡◌, ◌≤◌, ◌+◌, IfOk, OnOk, OnErr, IfSome, IfNone, is_some};
ghost use Rattle.std.specs.Prelude.{false, if◌then◌else◌, string_bytes, vec_len, vec_capacity};
ghost use Rattle.std.specs.List.{list_any, position};
ghost use Rattle.sgm_io.specs.Calls.{fails, call_name, reads_after, writes_after};
ghost use Rattle.sgm_io.specs.Counts.{one_more, no_faults};
ghost use Rattle.sgm_io.specs.Names.{times_in};
ghost use Rattle.sgm_io.specs.Piece.{FillsUpTo};
ghost use Rattle.sgm_io.specs.Trips.{without_first, fails_append};

use crate::Trip;
use crate::fill::fill_to;
use crate::trip::Call;
use std::alloc::{AllocError, Global};

// The trips that are left, and the faults so far. Spending a trip takes no memory, so that a call
// that takes none can trip too.
#[derive(Drop)]
pub(crate) struct Faults {
    alloc: Global,
    left: Vec<Trip>,
    // The names whose reading and whose writing failed, once for each time.
    reads: Vec<String>,
    writes: Vec<String>,
    ghost reads_room: { vec_len reads + vec_len left ≤ vec_capacity reads },
    ghost writes_room: { vec_len writes + vec_len left ≤ vec_capacity writes },
}

impl Faults {
    pub(crate) fn make(alloc: Global, trips: Vec<Trip>) -> Result<Faults, AllocError>
        ensures left { IfOk result (λ f. f.left.items ≡ trips.items) }
        ensures reads { IfOk result (λ f. times_in f.reads.items ≡ no_faults) }
        ensures writes { IfOk result (λ f. times_in f.writes.items ≡ no_faults) }
    {
        let reads = Vec::with_capacity(alloc, trips.len())?;
        let writes = Vec::with_capacity(alloc, trips.len())?;
        Ok(Faults {
            alloc,
            left: trips,
            reads,
            writes,
        })
    }

    // Counts a fetch of an absent name.
    pub(crate) fn miss(&mut self, name: &str) -> Result<(), AllocError>
        ensures reads { OnOk result (times_in self.new.reads.items
            ≡ one_more name.now (times_in self.old.reads.items)) }
        ensures err { OnErr result (self.new.reads.items ≡ self.old.reads.items) }
        ensures left { self.new.left.items ≡ self.old.left.items }
        ensures writes { self.new.writes.items ≡ self.old.writes.items }
    {
        let missed = String::from_str(self.alloc, name)?;
        self.reads.reserve(self.left.len() + 1)?;
        self.reads.push_reserved(missed);
        Ok(())
    }

    // Whether a trip fails this call. It is then spent and counted.
    pub(crate) fn trips(&mut self, call: Call<'_>) -> bool
        ensures tripped { result ≡ list_any (fails call.entry) self.old.left.items }
        ensures left { self.new.left.items ≡ without_first (fails call.entry) self.old.left.items }
        ensures all_left { result ≡ false → self.new.left.items ≡ self.old.left.items }
        ensures reads { let before = times_in self.old.reads.items in
            times_in self.new.reads.items
            ≡ (if result then reads_after call.entry before else before) }
        ensures writes { let before = times_in self.old.writes.items in
            times_in self.new.writes.items
            ≡ (if result then writes_after call.entry before else before) }
    {
        let Some(name) = take_first(&mut self.left, call) else {
            return false;
        };
        match call {
            Call::Fetch(_) => self.reads.push_reserved(name),
            Call::Create(_) => self.writes.push_reserved(name),
            Call::Append(_, _) => self.writes.push_reserved(name),
            Call::Finish(_) => self.writes.push_reserved(name),
        }
        true
    }

    // How many of `most` bytes an append may add to the name, which has `at` bytes, before a trip
    // stops it.
    pub(crate) fn room(&self, name: &str, at: usize, most: usize) -> usize
        ensures { FillsUpTo (fails_append self.now.left.items name.now) at most result }
    {
        let mut count = most;
        for trip in &self.left {
            if let Some(stop) = trip.stop(name) {
                count = fill_to(count, at, stop);
            }
        }
        count
    }
}

// Takes out the first trip that fails the call, and gives its name.
fn take_first(left: &mut Vec<Trip>, call: Call<'_>) -> Option<String>
    ensures found { is_some result ≡ list_any (fails call.entry) left.old.items }
    ensures left { left.new.items ≡ without_first (fails call.entry) left.old.items }
    ensures all_left { IfNone result (left.new.items ≡ left.old.items) }
    ensures name { IfSome result (λ name. string_bytes name ≡ call_name call.entry) }
    ensures len { vec_len left.new + (if is_some result then 1 else 0) ≡ vec_len left.old }
{
    match first(left, call) {
        Some(at) => Some(left.remove(at).into_name()),
        None => None,
    }
}

// Where the first trip stands that fails the call.
fn first(trips: &[Trip], call: Call<'_>) -> Option<usize>
    ensures { result ≡ position (fails call.entry) trips.now }
{
    trips.iter().position(|trip| trip.fails(call))
}
