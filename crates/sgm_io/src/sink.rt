ghost use Rattle.std.specs.Prelude.{ℕ, ◌+◌, ◌<◌, List, length, Bool, IsTrue, OnErr};
ghost use Rattle.sgm_io.specs.Piece.{TakesSome};
ghost use Rattle.sgm_io.specs.Sink.{SinkFaults, Writes, WritesWhole};

use thiserror::Error;

/// Why a write gave up.
#[derive(Clone, Copy, Debug, PartialEq, Eq, Error)]
pub enum SinkError {
    #[error("the bytes could not be written")]
    Failed,
}

/// What bytes go into. No call of a sink takes memory.
///
/// The clause on what was written stands where the sink tells it, the others always. The count of
/// faults never falls, and rises (as a shelf's) exactly where a write fails.
pub trait Sink {
    /// Whether contracts may speak of what was written.
    ghost tells: { Bool };

    /// The bytes written so far.
    ghost written: { Self → List ℕ };

    /// How often writing has failed.
    ghost faults: { Self → ℕ };

    /// Adds some bytes from the front of the piece, and answers how many: at least one of a piece
    /// that isn't empty. On an error none is added.
    fn write(&mut self, piece: &[u8]) -> Result<usize, SinkError>
        ensures written { IsTrue tells →
            Writes piece.now result (written self.old) (written self.new) }
        ensures count { TakesSome piece.now result }
        ensures faults { SinkFaults result (faults self.old) (faults self.new) };
}

/// Adds the whole piece, or on an error a part from its front, which is never all of it. It takes
/// no memory.
pub fn write_whole<O: Sink>(sink: &mut O, piece: &[u8]) -> Result<(), SinkError>
    ensures written { IsTrue O.tells →
        WritesWhole piece.now result (O.written sink.old) (O.written sink.new) }
    ensures short { IsTrue O.tells → OnErr result
        (length (O.written sink.new) < length (O.written sink.old) + length piece.now) }
    ensures faults { SinkFaults result (O.faults sink.old) (O.faults sink.new) }
{
    let mut done = 0;
    while done < piece.len() {
        match sink.write(&piece[done..]) {
            Ok(count) => done += count,
            Err(error) => return Err(error),
        }
    }
    Ok(())
}
