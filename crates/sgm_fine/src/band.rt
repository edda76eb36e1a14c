//! The rows of both planes in which the windows of a row of pixels lie, packed, so that small
//! samples are read without a question.

ghost use Rattle.std.specs.Prelude.{◌≡◌, ℕ, ◌<◌, ◌≤◌, ◌+◌, ◌-◌, ◌*◌, ◌^◌, false, length};
ghost use Rattle.sgm_base.specs.Values.{value_at};
ghost use Rattle.sgm_fine.specs.Bands.{HoldsBands, HoldsRows, IsPackedFrom, packed};
ghost use Rattle.sgm_fine.specs.Windows.{number};

use crate::around::Field;
use crate::sums::SIDE;

/// The columns that a packed row has room for: as many as an image can have, and some more, so that
/// the five rows don't lie on the same lines of a cache.
pub(crate) const ROOM: usize = 4160;

/// How many samples are packed together.
const CHUNK: usize = 64;

/// The samples of five rows that are below 256, row by row; -1 for each other one.
pub(crate) type Band = [i16; SIDE * ROOM];

/// The rows around a row of pixels of both planes, where they are packed.
#[derive(Drop)]
pub(crate) struct Bands {
    pub(crate) left: Band,
    pub(crate) right: Band,
    pub(crate) are_packed: bool,
}

/// A sample that is below 256, -1 for each other one.
#[inline]
fn pack(sample: Option<u16>) -> i16
    ensures { result ≡ packed sample }
{
    let value = sample.unwrap_or(u16::MAX);
    if value < 256 { value as i16 } else { -1 }
}

/// Packs samples one after the other from the place `from` of a band on.
#[inline]
fn pack_each(samples: &[Option<u16>], from: usize, band: &mut Band)
    requires { from + length samples.now ≤ SIDE * ROOM }
    ensures { IsPackedFrom from samples.now band.old band.new }
{
    for q in 0..samples.len() {
        band[from + q] = pack(samples[q]);
    }
}

/// The same of [`CHUNK`] samples. They are copied first: only where all of them may be read,
/// whether or not they are there, the compiler puts them into lanes.
fn pack_chunk(samples: &[Option<u16>], from: usize, band: &mut Band)
    requires chunk { length samples.now ≡ CHUNK }
    requires room { from + CHUNK ≤ SIDE * ROOM }
    ensures { IsPackedFrom from samples.now band.old band.new }
{
    let mut copied = [None; CHUNK];
    copied.copy_from_slice(samples);
    pack_each(&copied, from, band);
}

/// Packs a row of a plane from the place `from` of a band on.
fn pack_row(row: &[Option<u16>], from: usize, band: &mut Band)
    requires { from + length row.now ≤ SIDE * ROOM }
    ensures { IsPackedFrom from row.now band.old band.new }
{
    let whole = row.len() / CHUNK;
    for n in 0..whole {
        pack_chunk(&row[n * CHUNK..(n + 1) * CHUNK], from + n * CHUNK, band);
    }
    pack_each(&row[whole * CHUNK..], from + whole * CHUNK, band);
}

/// Packs the rows around the row `y` of a plane.
fn pack_rows(plane: &Field, y: usize, band: &mut Band)
    requires row { y < 2 ^ 15 }
    requires inside { (2 ≤ y) × (y + 2 < plane.now.height) }
    ensures { HoldsRows SIDE band.new plane.now y }
{
    for j in 0..SIDE {
        pack_row(plane.row(y + j - 2), ROOM * j, band);
    }
}

/// Rows that aren't packed.
#[inline]
pub(crate) fn no_bands() -> Bands
    ensures { result.are_packed ≡ false }
{
    Bands {
        left: [0; SIDE * ROOM],
        right: [0; SIDE * ROOM],
        are_packed: false,
    }
}

/// Packs the rows around the row `y` of both planes, where all of them lie inside.
pub(crate) fn pack_bands(left: &Field, right: &Field, y: usize, bands: &mut Bands)
    requires row { y < 2 ^ 15 }
    requires none { bands.old.are_packed ≡ false }
    ensures { HoldsBands bands.new left.now right.now y }
{
    if left.has_rows(y) && right.has_rows(y) {
        pack_rows(left, y, &mut bands.left);
        pack_rows(right, y, &mut bands.right);
        bands.are_packed = true;
    }
}
