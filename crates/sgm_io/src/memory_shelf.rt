ghost use Rattle.std.specs.Prelude.{◌≡◌, ◌↔◌, ◌⊎◌, ◌≤◌, ◌<◌, [], length, map, true, None};
ghost use Rattle.std.specs.Prelude.{IsTrue, IsSome, IfOk, OnOk, OnErr, if◌then◌else◌};

use crate::faults::Faults;
use crate::files::{Files, copy_at_most};
use crate::trip::Call;
use crate::{FetchError, KeepError, Shelf, Trip};
use std::alloc::{AllocError, Global};

/// A shelf in memory, with trips. It tells what it holds.
#[derive(Drop)]
pub struct MemoryShelf {
    files: Files,
    faults: Faults,
}

impl MemoryShelf {
    ghost use Rattle.sgm_io.specs.Counts.{no_faults};
    ghost use Rattle.sgm_io.specs.Filed.{named_bytes};
    ghost use Rattle.sgm_io.specs.Held.{no_files, put_all};
    ghost use Rattle.sgm_io.specs.MemoryShelf.{held_in, writing_in, unfinished_in};
    ghost use Rattle.sgm_io.specs.MemoryShelf.{trips_in, reads_in, writes_in};
    ghost use Rattle.sgm_io.specs.Unfinished.{no_names};

    /// A shelf that holds these files. Where two have one name the later counts.
    pub fn make(
        alloc: Global,
        files: Vec<(String, Vec<u8>)>,
        trips: Vec<Trip>,
    ) -> Result<MemoryShelf, AllocError>
        ensures held { IfOk result (λ shelf.
            held_in shelf ≡ put_all (map named_bytes files.items) no_files) }
        ensures writing { IfOk result (λ shelf. writing_in shelf ≡ None) }
        ensures unfinished { IfOk result (λ shelf. unfinished_in shelf ≡ no_names) }
        ensures trips { IfOk result (λ shelf. trips_in shelf ≡ trips.items) }
        ensures reads { IfOk result (λ shelf. reads_in shelf ≡ no_faults) }
        ensures writes { IfOk result (λ shelf. writes_in shelf ≡ no_faults) }
    {
        let files = Files::make(alloc, files)?;
        let faults = Faults::make(alloc, trips)?;
        Ok(MemoryShelf { files, faults })
    }
}

// The calls on the file being written, with its own name and length.
impl MemoryShelf {
    ghost use Rattle.sgm_io.specs.Counts.{one_more};
    ghost use Rattle.sgm_io.specs.MemoryShelf.{writing_in, trips_in, reads_in, writes_in};
    ghost use Rattle.sgm_io.specs.MemoryShelf.{name_in, length_in, stops_here};
    ghost use Rattle.sgm_io.specs.Piece.{FillsUpTo};
    ghost use Rattle.sgm_io.specs.Trips.{is_append_at, is_finish_of, without_first};
    ghost use Rattle.sgm_io.specs.Trips.{fails_append, fails_finish};

    // Whether a trip fails an append of the piece now. It is then spent and counted.
    fn trips_append(&mut self, piece: &[u8]) -> bool
        requires { IsSome (writing_in self.old) }
        ensures tripped { IsTrue result ↔ ((0 < length piece.now) × IsTrue (stops_here self.old)) }
        ensures left { let here = is_append_at (name_in self.old) (length_in self.old) in
            trips_in self.new
            ≡ (if result then without_first here (trips_in self.old) else trips_in self.old) }
        ensures reads { reads_in self.new ≡ reads_in self.old }
        ensures writes { writes_in self.new
            ≡ (if result then one_more (name_in self.old) (writes_in self.old)
            else writes_in self.old) }
        ensures files { self.new.files ≡ self.old.files }
    {
        if piece.is_empty() {
            return false;
        }
        let Some(file) = self.files.current() else {
            unreachable!()
        };
        self.faults
            .trips(Call::Append(file.name(), file.bytes().len()))
    }

    // Whether a trip fails a finish now. It is then spent and counted.
    fn trips_finish(&mut self) -> bool
        requires { IsSome (writing_in self.old) }
        ensures tripped { result ≡ fails_finish (trips_in self.old) (name_in self.old) }
        ensures left { trips_in self.new
            ≡ without_first (is_finish_of (name_in self.old)) (trips_in self.old) }
        ensures reads { reads_in self.new ≡ reads_in self.old }
        ensures writes { writes_in self.new
            ≡ (if result then one_more (name_in self.old) (writes_in self.old)
            else writes_in self.old) }
        ensures files { self.new.files ≡ self.old.files }
    {
        let Some(file) = self.files.current() else {
            unreachable!()
        };
        self.faults.trips(Call::Finish(file.name()))
    }

    // How many of `most` bytes an append may add now, before a trip stops it.
    fn room(&self, most: usize) -> usize
        requires { IsSome (writing_in self.now) }
        ensures { FillsUpTo (fails_append (trips_in self.now) (name_in self.now))
            (length_in self.now) most result }
    {
        let Some(file) = self.files.current() else {
            unreachable!()
        };
        self.faults.room(file.name(), file.bytes().len(), most)
    }
}

impl Shelf for MemoryShelf {
    ghost use Rattle.sgm_io.specs.Fetch.{Fetches, FetchReads, FetchWrites, FetchCounts};
    ghost use Rattle.sgm_io.specs.Keep.{KeepReads, KeepWrites, KeepCounts};
    ghost use Rattle.sgm_io.specs.Bytes.{files_hold_bytes};
    ghost use Rattle.sgm_io.specs.Keep.{Creates, CreatesWriting, Appends, FinishesWriting};
    ghost use Rattle.sgm_io.specs.Keep.{Begins, Finishes};
    ghost use Rattle.sgm_io.specs.MemoryShelf.{held_in, writing_in, unfinished_in};
    ghost use Rattle.sgm_io.specs.MemoryShelf.{trips_in, reads_in, writes_in};
    ghost use Rattle.sgm_io.specs.MemoryShelf.{name_in, length_in, stops_here, SpendsAppend};
    ghost use Rattle.sgm_io.specs.Piece.{TakesSome, FillsUpTo};
    ghost use Rattle.sgm_io.specs.Trips.{is_fetch_of, is_create_of, is_finish_of, without_first};
    ghost use Rattle.sgm_io.specs.Trips.{fails_fetch, fails_create, fails_append, fails_finish};
    ghost use Rattle.sgm_io.specs.Writing.{writing_held};

    ghost tells = { true };

    ghost held = { held_in };

    ghost writing = { writing_in };

    ghost unfinished = { unfinished_in };

    ghost read_faults = { reads_in };

    ghost write_faults = { writes_in };

    ghost writing_is_held = { λ shelf told name is.
        writing_held shelf.files.is_open shelf.files.files.items _ name is };

    ghost held_is_bytes = { λ shelf told.
        files_hold_bytes shelf.files.files.items shelf.files.have_bytes };

    /// Fails where a trip of fetching the name is left, or the name is absent, and nowhere else.
    /// The name's read count is then one more.
    fn fetch(&mut self, name: &str, most: usize, into: &mut Vec<u8>) -> Result<(), FetchError>
        requires { into.old.items ≡ [] }
        ensures bytes { Fetches most (held_in self.old name.now) result into.new.items }
        ensures fits { OnOk result (length into.new.items ≤ most) }
        ensures empty { OnErr result (into.new.items ≡ []) }
        ensures held { held_in self.new ≡ held_in self.old }
        ensures writing { writing_in self.new ≡ writing_in self.old }
        ensures unfinished { unfinished_in self.new ≡ unfinished_in self.old }
        ensures reads { FetchReads name.now result (reads_in self.old) (reads_in self.new) }
        ensures writes { FetchWrites result (writes_in self.old) (writes_in self.new) }

        ensures tripped { IsTrue (fails_fetch (trips_in self.old) name.now)
            → result ≡ Err FetchError.Failed }
        ensures failed { result ≡ Err FetchError.Failed →
            IsTrue (fails_fetch (trips_in self.old) name.now) ⊎ (held_in self.old name.now ≡ None) }
        ensures counted { FetchCounts name.now result (reads_in self.old) (reads_in self.new) }
        ensures writes_stay { writes_in self.new ≡ writes_in self.old }
        ensures spent { trips_in self.new
            ≡ without_first (is_fetch_of name.now) (trips_in self.old) }
    {
        if self.faults.trips(Call::Fetch(name)) {
            return Err(FetchError::Failed);
        }
        match self.files.bytes(name) {
            Some(bytes) => copy_at_most(bytes, most, into),
            None => match self.faults.miss(name) {
                Ok(()) => Err(FetchError::Failed),
                Err(_) => Err(FetchError::NoMemory),
            },
        }
    }

    /// Fails exactly where a trip of creating the name is left. What is held then stays, and the
    /// name's write count is one more.
    fn create(&mut self, name: &str) -> Result<(), KeepError>
        ensures held { Creates name.now result (held_in self.old) (held_in self.new) }
        ensures writing { CreatesWriting name.now result
            (writing_in self.old) (writing_in self.new) }
        ensures unfinished { Begins name.now result
            (unfinished_in self.old) (unfinished_in self.new) }
        ensures reads { KeepReads result (reads_in self.old) (reads_in self.new) }
        ensures writes { KeepWrites name.now result (writes_in self.old) (writes_in self.new) }

        ensures failed { (result ≡ Err KeepError.Failed)
            ↔ IsTrue (fails_create (trips_in self.old) name.now) }
        ensures kept { OnErr result (held_in self.new ≡ held_in self.old) }
        ensures counted { KeepCounts name.now result (writes_in self.old) (writes_in self.new) }
        ensures reads_stay { reads_in self.new ≡ reads_in self.old }
        ensures spent { trips_in self.new
            ≡ without_first (is_create_of name.now) (trips_in self.old) }
    {
        if self.faults.trips(Call::Create(name)) {
            self.files.leave();
            return Err(KeepError::Failed);
        }
        match self.files.begin(name) {
            Ok(()) => Ok(()),
            Err(_) => Err(KeepError::NoMemory),
        }
    }

    /// Fails exactly where the piece isn't empty and a trip of appending to the name at its length
    /// is left. The name's write count is then one more. Else it adds the whole piece, or as much
    /// as goes in before the next length at which a trip is left.
    fn append(&mut self, piece: &[u8]) -> Result<usize, KeepError>
        requires { IsSome (writing_in self.old) }
        ensures held { Appends (name_in self.old) piece.now result
            (held_in self.old) (held_in self.new) }
        ensures count { TakesSome piece.now result }
        ensures writing { writing_in self.new ≡ writing_in self.old }
        ensures unfinished { unfinished_in self.new ≡ unfinished_in self.old }
        ensures reads { KeepReads result (reads_in self.old) (reads_in self.new) }
        ensures writes { KeepWrites (name_in self.old) result
            (writes_in self.old) (writes_in self.new) }

        ensures failed { (result ≡ Err KeepError.Failed)
            ↔ ((0 < length piece.now) × IsTrue (stops_here self.old)) }
        ensures fills { let stops = fails_append (trips_in self.old) (name_in self.old) in
            IfOk result (λ count. FillsUpTo stops (length_in self.old) (length piece.now) count) }
        ensures counted { KeepCounts (name_in self.old) result
            (writes_in self.old) (writes_in self.new) }
        ensures reads_stay { reads_in self.new ≡ reads_in self.old }
        ensures spent { SpendsAppend result self.old self.new }
    {
        if self.trips_append(piece) {
            return Err(KeepError::Failed);
        }
        let count = self.room(piece.len());
        match self.files.grow(&piece[..count]) {
            Ok(()) => Ok(count),
            Err(_) => Err(KeepError::NoMemory),
        }
    }

    /// Fails exactly where a trip of finishing the name is left. The name's write count is then one
    /// more.
    fn finish(&mut self) -> Result<(), KeepError>
        requires { IsSome (writing_in self.old) }
        ensures held { held_in self.new ≡ held_in self.old }
        ensures writing { FinishesWriting result (writing_in self.new) }
        ensures unfinished { Finishes (name_in self.old) result
            (unfinished_in self.old) (unfinished_in self.new) }
        ensures reads { KeepReads result (reads_in self.old) (reads_in self.new) }
        ensures writes { KeepWrites (name_in self.old) result
            (writes_in self.old) (writes_in self.new) }

        ensures failed { (result ≡ Err KeepError.Failed)
            ↔ IsTrue (fails_finish (trips_in self.old) (name_in self.old)) }
        ensures counted { KeepCounts (name_in self.old) result
            (writes_in self.old) (writes_in self.new) }
        ensures reads_stay { reads_in self.new ≡ reads_in self.old }
        ensures spent { trips_in self.new
            ≡ without_first (is_finish_of (name_in self.old)) (trips_in self.old) }
    {
        if self.trips_finish() {
            self.files.leave();
            return Err(KeepError::Failed);
        }
        self.files.finish();
        Ok(())
    }

    fn is_writing(&self) -> bool {
        self.files.is_open()
    }
}
