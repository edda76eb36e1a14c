ghost use Rattle.std.specs.Prelude.{◌≡◌, ◌↔◌, ◌+◌, ◌<◌, ◌≤◌, ℕ, List, [], length, Bool, Option};
ghost use Rattle.std.specs.Prelude.{Some};
ghost use Rattle.std.specs.Prelude.{IsTrue, IsSome, OnOk, OnErr};
ghost use Rattle.sgm_io.specs.Held.{Held, HoldsBytes, length_at};
ghost use Rattle.sgm_io.specs.Counts.{Counts};
ghost use Rattle.sgm_io.specs.Piece.{TakesSome};
ghost use Rattle.sgm_io.specs.Fetch.{Fetches, FetchReads, FetchWrites};
ghost use Rattle.sgm_io.specs.Keep.{name_of, KeepReads, KeepWrites, Creates, CreatesWriting};
ghost use Rattle.sgm_io.specs.Keep.{Appends, AppendsWhole, FinishesWriting, Begins, Finishes};
ghost use Rattle.sgm_io.specs.Unfinished.{NameSet};

use thiserror::Error;

/// Why a fetch gave nothing.
#[derive(Clone, Copy, Debug, PartialEq, Eq, Error)]
pub enum FetchError {
    /// The device failed, or the name is absent.
    #[error("the file could not be read")]
    Failed,
    /// More bytes are held than were allowed.
    #[error("the file is too long")]
    TooLong,
    #[error("out of memory")]
    NoMemory,
}

/// Why a call that writes gave up.
#[derive(Clone, Copy, Debug, PartialEq, Eq, Error)]
pub enum KeepError {
    #[error("the file could not be written")]
    Failed,
    #[error("out of memory")]
    NoMemory,
}

/// A shelf of named files, of which at most one is being written.
///
/// Clauses on what is held stand where the shelf tells it, all others always. The shelf keeps two
/// counts of faults for each name, apart for reading and writing. They never fall, and a call that
/// doesn't answer Failed leaves each as it is. A count rose where it is greater than before, or
/// stands at 2^64 - 1, its last value.
pub trait Shelf {
    /// Whether contracts may speak of what is held.
    ghost tells: { Bool };

    /// The bytes under each name, or none where the name is absent.
    ghost held: { Self → Held };

    /// The name being written, or none.
    ghost writing: { Self → Option (List ℕ) };

    /// The names that were begun and not finished: a name begun stays so until a finish of it
    /// answers Ok.
    ghost unfinished: { Self → NameSet };

    /// For each name, how often reading it has failed.
    ghost read_faults: { Self → Counts };

    /// For each name, how often writing it has failed.
    ghost write_faults: { Self → Counts };

    /// Puts the bytes under the name into an empty vector, if there are at most `most`.
    ///
    /// An absent name gives Failed or NoMemory. Where more bytes are held, the answer is TooLong or
    /// NoMemory, or Failed where the name's read count rose.
    fn fetch(&mut self, name: &str, most: usize, into: &mut Vec<u8>) -> Result<(), FetchError>
        requires { into.old.items ≡ [] }
        ensures bytes { IsTrue tells → Fetches most (held self.old name.now) result into.new.items }
        ensures fits { OnOk result (length into.new.items ≤ most) }
        ensures empty { OnErr result (into.new.items ≡ []) }
        ensures held { IsTrue tells → held self.new ≡ held self.old }
        ensures writing { writing self.new ≡ writing self.old }
        ensures unfinished { unfinished self.new ≡ unfinished self.old }
        ensures reads { FetchReads name.now result (read_faults self.old) (read_faults self.new) }
        ensures writes { FetchWrites result (write_faults self.old) (write_faults self.new) };

    /// Begins a file anew, without bytes. A file that was being written before stays as it is, and
    /// unfinished.
    ///
    /// After Failed no file is being written, and the name is as before or holds no bytes. After
    /// NoMemory nothing has changed.
    fn create(&mut self, name: &str) -> Result<(), KeepError>
        ensures held { IsTrue tells → Creates name.now result (held self.old) (held self.new) }
        ensures writing { CreatesWriting name.now result (writing self.old) (writing self.new) }
        ensures unfinished { Begins name.now result (unfinished self.old) (unfinished self.new) }
        ensures reads { KeepReads result (read_faults self.old) (read_faults self.new) }
        ensures writes { KeepWrites name.now result
            (write_faults self.old) (write_faults self.new) };

    /// Adds some bytes from the front of the piece to the file being written, and answers how many:
    /// at least one of a piece that isn't empty. On an error none is added. The file is still being
    /// written afterwards.
    fn append(&mut self, piece: &[u8]) -> Result<usize, KeepError>
        requires { IsSome (writing self.old) }
        ensures held { IsTrue tells →
            Appends (name_of (writing self.old)) piece.now result (held self.old) (held self.new) }
        ensures count { TakesSome piece.now result }
        ensures writing { writing self.new ≡ writing self.old }
        ensures unfinished { unfinished self.new ≡ unfinished self.old }
        ensures reads { KeepReads result (read_faults self.old) (read_faults self.new) }
        ensures writes { KeepWrites (name_of (writing self.old)) result
            (write_faults self.old) (write_faults self.new) };

    /// Ends the file being written, also where it answers Failed; its name is then still
    /// unfinished. It never answers NoMemory.
    fn finish(&mut self) -> Result<(), KeepError>
        requires { IsSome (writing self.old) }
        ensures held { IsTrue tells → held self.new ≡ held self.old }
        ensures writing { FinishesWriting result (writing self.new) }
        ensures unfinished { Finishes (name_of (writing self.old)) result
            (unfinished self.old) (unfinished self.new) }
        ensures reads { KeepReads result (read_faults self.old) (read_faults self.new) }
        ensures writes { KeepWrites (name_of (writing self.old)) result
            (write_faults self.old) (write_faults self.new) };

    /// Whether a file is being written.
    fn is_writing(&self) -> bool
        ensures { IsTrue result ↔ IsSome (writing self.now) };

    /// A name that is being written is held, so that an append really adds its bytes.
    ghost writing_is_held: { (shelf : Self) → IsTrue tells →
        (name : List ℕ) → writing shelf ≡ Some name → IsSome (held shelf name) };

    /// What is held are bytes.
    ghost held_is_bytes: { (shelf : Self) → IsTrue tells → HoldsBytes (held shelf) };
}

/// Adds the whole piece to the file being written, or on an error a part from its front, which is
/// never all of it. The file is still being written afterwards.
pub fn append_whole<S: Shelf>(shelf: &mut S, piece: &[u8]) -> Result<(), KeepError>
    requires { IsSome (S.writing shelf.old) }
    ensures held { IsTrue S.tells →
        AppendsWhole (name_of (S.writing shelf.old)) piece.now result
        (S.held shelf.old) (S.held shelf.new) }
    ensures short { IsTrue S.tells → OnErr result
        (let name = name_of (S.writing shelf.old) in
        length_at (S.held shelf.new) name < length_at (S.held shelf.old) name + length piece.now) }
    ensures writing { S.writing shelf.new ≡ S.writing shelf.old }
    ensures unfinished { S.unfinished shelf.new ≡ S.unfinished shelf.old }
    ensures reads { KeepReads result (S.read_faults shelf.old) (S.read_faults shelf.new) }
    ensures writes { KeepWrites (name_of (S.writing shelf.old)) result
        (S.write_faults shelf.old) (S.write_faults shelf.new) }
{
    let mut done = 0;
    while done < piece.len() {
        match shelf.append(&piece[done..]) {
            Ok(count) => done += count,
            Err(error) => return Err(error),
        }
    }
    Ok(())
}
