ghost use Rattle.std.specs.Prelude.{◌≡◌, ◌≤◌, ◌<◌, ℕ, List, IfSome, IfNone, OnOk, length, take};
ghost use Rattle.std.specs.Io.KnownBytes.{Appends, Consumes, Keeps};

use crate::FetchError;
use std::io::{Read, Write};

const CHUNK: usize = 65536;

/// Replaces `into` by all bytes of a stream up to its end, which are at most `most`.
///
/// # Errors
/// `TooLong` where it has more than `most`, `Failed` where the stream fails before that is known,
/// and `NoMemory`.
pub fn read_at_most<R: Read>(
    stream: &mut R,
    most: usize,
    into: &mut Vec<u8>,
) -> Result<(), FetchError>
    ensures fits { OnOk result (length into.new.items ≤ most) }
    // Where the stream tells its bytes, these are all of them, or there are too many.
    ensures whole { OnOk result
        (IfSome (R.remaining stream.old) (λ bytes. into.new.items ≡ bytes)) }
    ensures long { result ≡ Err FetchError.TooLong →
        IfSome (R.remaining stream.old) (λ bytes. most < length bytes) }
    // It fails only where it has read no more than `most` bytes.
    ensures failed { result ≡ Err FetchError.Failed →
        (bytes : List ℕ) × Consumes (R.remaining stream.old) (R.remaining stream.new) bytes
        × (length bytes ≤ most) }
{
    into.clear();
    let mut chunk = [0; CHUNK];
    // Each turn takes a byte or ends.
    loop {
        let left = most - into.len();
        let limit = left.saturating_add(1).min(CHUNK);
        match stream.read(&mut chunk[..limit]) {
            Ok(0) => return Ok(()),
            Ok(count) => {
                if count > left {
                    return Err(FetchError::TooLong);
                }
                if into.extend_from_slice(&chunk[..count]).is_err() {
                    return Err(FetchError::NoMemory);
                }
            }
            Err(_) => return Err(FetchError::Failed),
        }
    }
}

// Writes some bytes from the front of the piece, at least one if it isn't empty. A device that
// takes none of those fails.
pub(crate) fn write_some<W: Write>(stream: &mut W, piece: &[u8]) -> Option<usize>
    ensures within { IfSome result (λ count. count ≤ length piece.now) }
    ensures some { IfSome result (λ count. 0 < length piece.now → 0 < count) }
    // Where the stream tells its bytes, these were added, or none.
    ensures taken { IfSome result (λ count.
        Appends (W.contents stream.old) (W.contents stream.new) (take count piece.now)) }
    ensures kept { IfNone result (Keeps (W.contents stream.old) (W.contents stream.new)) }
{
    match stream.write(piece) {
        Ok(0) if !piece.is_empty() => None,
        Ok(count) => Some(count),
        Err(_) => None,
    }
}
