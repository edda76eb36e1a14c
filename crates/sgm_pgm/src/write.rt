//! Writing PGM texts.

ghost use Rattle.std.specs.Prelude.{◌≡◌, ◌+◌, ◌*◌, ◌≤◌, ◌++◌, OnOk, OnErr, length, vec_len};
ghost use Rattle.std.specs.Prelude.{vec_capacity, flat_map};
ghost use Rattle.sgm_pgm.specs.Raster.{two_bytes};
ghost use Rattle.sgm_pgm.specs.Write.{text_of};

use itoa::Buffer;
use sgm_base::Size;
use std::alloc::AllocError;

/// Adds the PGM text of an image with maxval 65535 to `into`: `P5`, LF, width, space, height, LF,
/// `65535`, LF, and the samples row by row, each as two bytes with the most significant first.
/// Leaves `into` as it was on an error.
pub fn write16(size: Size, samples: &[u16], into: &mut Vec<u8>) -> Result<(), AllocError>
    requires { length samples.now ≡ size.width * size.height }
    ensures ok { OnOk result
        (into.new.items ≡ into.old.items ++ text_of size.width size.height samples.now) }
    ensures err { OnErr result (into.new.items ≡ into.old.items) }
{
    let mut width = Buffer::new();
    let mut height = Buffer::new();
    let width = width.format(size.width).as_bytes();
    let height = height.format(size.height).as_bytes();
    into.reserve(width.len() + height.len() + 11 + 2 * size.pixels())?;
    append(into, b"P5\n");
    append(into, width);
    append(into, b" ");
    append(into, height);
    append(into, b"\n65535\n");
    append_samples(into, samples);
    Ok(())
}

/// Adds bytes for which there is room.
fn append(into: &mut Vec<u8>, bytes: &[u8])
    requires { vec_len into.old + length bytes.now ≤ vec_capacity into.old }
    ensures items { into.new.items ≡ into.old.items ++ bytes.now }
    ensures room { vec_capacity into.old ≤ vec_capacity into.new }
{
    into.extend_from_slice(bytes).unwrap()
}

/// Adds two bytes a sample, for which there is room.
fn append_samples(into: &mut Vec<u8>, samples: &[u16])
    requires { vec_len into.old + 2 * length samples.now ≤ vec_capacity into.old }
    ensures { into.new.items ≡ into.old.items ++ flat_map two_bytes samples.now }
{
    let from = into.len();
    into.resize(from + 2 * samples.len(), 0).unwrap();
    let (_, behind) = into.as_mut_slice().split_at_mut(from);
    write_samples(samples, behind);
}

/// Writes two bytes a sample.
fn write_samples(samples: &[u16], into: &mut [u8])
    requires { length samples.now * 2 ≡ length into.old }
    ensures { into.new ≡ flat_map two_bytes samples.now }
{
    for index in 0..samples.len() {
        let [high, low] = samples[index].to_be_bytes();
        into[2 * index] = high;
        into[2 * index + 1] = low;
    }
}
