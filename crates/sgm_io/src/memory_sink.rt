ghost use Rattle.std.specs.Prelude.{◌≡◌, ◌↔◌, ◌≤◌, ◌<◌, ◌+◌, [], length, true, IsTrue, IfOk};
ghost use Rattle.std.specs.Prelude.{vec_len, vec_capacity};

use crate::fill::fill_to;
use crate::{Sink, SinkError};
use std::alloc::{AllocError, Global};

/// A sink in memory, which fails where its room is full, and once at the length of its trip. It
/// tells what was written.
#[derive(Drop)]
pub struct MemorySink {
    bytes: Vec<u8>,
    room: usize,
    trip: Option<usize>,
    faults: u64,
    ghost within: { vec_len bytes ≤ room },
    ghost has_room: { room ≤ vec_capacity bytes },
}

impl MemorySink {
    ghost use Rattle.sgm_io.specs.MemorySink.{taken_by, room_of, trip_of, faults_of};

    /// A sink without bytes. It takes the memory for `room` bytes at once.
    pub fn make(alloc: Global, room: usize, trip: Option<usize>) -> Result<MemorySink, AllocError>
        ensures taken { IfOk result (λ sink. taken_by sink ≡ []) }
        ensures room { IfOk result (λ sink. room_of sink ≡ room) }
        ensures trip { IfOk result (λ sink. trip_of sink ≡ trip) }
        ensures faults { IfOk result (λ sink. faults_of sink ≡ 0) }
    {
        let bytes = Vec::with_capacity(alloc, room)?;
        Ok(MemorySink {
            bytes,
            room,
            trip,
            faults: 0,
        })
    }

    /// The bytes written so far.
    pub fn taken(&self) -> &[u8]
        ensures { result.now ≡ taken_by self.now }
    {
        &self.bytes
    }
}

impl MemorySink {
    ghost use Rattle.sgm_io.specs.Piece.{FillsUpTo};
    ghost use Rattle.sgm_io.specs.MemorySink.{taken_by, room_of, trip_of, faults_of, stops_in};
    ghost use Rattle.sgm_io.specs.MemorySink.{trip_after, one_fault_more};

    // How many of `most` bytes go in now.
    fn space(&self, most: usize) -> usize
        ensures fills { FillsUpTo (stops_in self.now) (length (taken_by self.now)) most result }
        ensures fits { vec_len self.now.bytes + result ≤ self.now.room }
    {
        let at = self.bytes.len();
        let count = fill_to(most, at, self.room);
        match self.trip {
            Some(stop) => fill_to(count, at, stop),
            None => count,
        }
    }

    // Counts a write that failed, and spends the trip if it stands at this length.
    fn fail(&mut self)
        ensures taken { taken_by self.new ≡ taken_by self.old }
        ensures room { room_of self.new ≡ room_of self.old }
        ensures trip { trip_of self.new
            ≡ trip_after (length (taken_by self.old)) (trip_of self.old) }
        ensures faults { faults_of self.new ≡ one_fault_more (faults_of self.old) }
        ensures later { faults_of self.old ≤ faults_of self.new }
    {
        if self.trip == Some(self.bytes.len()) {
            self.trip = None;
        }
        self.faults = self.faults.saturating_add(1);
    }
}

impl Sink for MemorySink {
    ghost use Rattle.sgm_io.specs.Piece.{TakesSome, FillsUpTo};
    ghost use Rattle.sgm_io.specs.Sink.{Writes, SinkFaults};
    ghost use Rattle.sgm_io.specs.MemorySink.{taken_by, room_of, trip_of, faults_of, stops_in};
    ghost use Rattle.sgm_io.specs.MemorySink.{CountsFailure, SpendsTrip};

    ghost tells = { true };

    ghost written = { taken_by };

    ghost faults = { faults_of };

    /// Fails exactly where the piece isn't empty and the room is full, or the trip stands at this
    /// length. Else it takes the whole piece, or as much as goes in before that.
    fn write(&mut self, piece: &[u8]) -> Result<usize, SinkError>
        ensures written { Writes piece.now result (taken_by self.old) (taken_by self.new) }
        ensures count { TakesSome piece.now result }
        ensures faults { SinkFaults result (faults_of self.old) (faults_of self.new) }

        ensures failed { (result ≡ Err SinkError.Failed)
            ↔ ((0 < length piece.now) × IsTrue (stops_in self.old (length (taken_by self.old)))) }
        ensures fills { let at = length (taken_by self.old) in
            IfOk result (λ count. FillsUpTo (stops_in self.old) at (length piece.now) count) }
        ensures counted { CountsFailure result (faults_of self.old) (faults_of self.new) }
        ensures room { room_of self.new ≡ room_of self.old }
        ensures trip { let at = length (taken_by self.old) in
            SpendsTrip result at (trip_of self.old) (trip_of self.new) }
    {
        if piece.is_empty() {
            return Ok(0);
        }
        let count = self.space(piece.len());
        if count == 0 {
            self.fail();
            return Err(SinkError::Failed);
        }
        self.bytes.extend_from_slice(&piece[..count]).unwrap();
        Ok(count)
    }
}
