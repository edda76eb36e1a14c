ghost use Rattle.std.specs.Prelude.{◌≡◌, false, [], take, IfOk, OnErr};
ghost use Rattle.std.specs.Io.KnownBytes.{Appends, Keeps};
ghost use Rattle.sgm_io.specs.Piece.{TakesSome};
ghost use Rattle.sgm_io.specs.Sink.{SinkFaults};

use crate::device::write_some;
use crate::{Sink, SinkError};
use std::io::Write;

/// A standard stream as a sink. It tells no bytes. Its count rises where a write fails.
#[derive(Drop)]
pub struct StdSink<W> {
    stream: W,
    faults: u64,
}

impl<W: Write + Drop> StdSink<W> {
    /// A sink over the stream, in which nothing has failed.
    pub fn make(stream: W) -> StdSink<W>
        ensures { ⟦<StdSink<W> as Sink>⟧.faults result ≡ 0 }
    {
        StdSink { stream, faults: 0 }
    }
}

impl<W: Write + Drop> Sink for StdSink<W> {
    ghost tells = { false };

    ghost written = { λ sink. [] };

    ghost faults = { λ sink. sink.faults };

    /// Hands the bytes on to the stream. Where that tells its bytes, those of the answer were
    /// added, and none on an error.
    fn write(&mut self, piece: &[u8]) -> Result<usize, SinkError>
        ensures count { TakesSome piece.now result }
        ensures faults { SinkFaults result self.old.faults self.new.faults }

        ensures taken { IfOk result (λ count.
            Appends (W.contents self.old.stream) (W.contents self.new.stream)
            (take count piece.now)) }
        ensures kept { OnErr result
            (Keeps (W.contents self.old.stream) (W.contents self.new.stream)) }
    {
        match write_some(&mut self.stream, piece) {
            Some(count) => Ok(count),
            None => {
                self.faults = self.faults.saturating_add(1);
                Err(SinkError::Failed)
            }
        }
    }
}
