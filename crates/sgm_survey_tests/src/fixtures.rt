//! Images, maps, grids and calibrations for the tests.

ghost use Rattle.std.specs.Prelude.{◌≡◌, IfOk};

use sgm_base::{DispMap, Image, Size};
use sgm_calib::{Calib, read};
use sgm_example::END;
use sgm_grid::{Grid, read_asc};
use std::alloc::Global;
use std::test::Fail;

/// A row of the left image of the worked example.
pub const LEFT: [u16; 5] = [90, 10, 50, 20, 40];

/// A row of its right image.
pub const RIGHT: [u16; 5] = [10, 50, 20, 40, 30];

fn image(alloc: Global, sides: (u32, u32), samples: &[u16]) -> Result<Image, Fail> {
    let size = Size::make(sides.0, sides.1).ok_or("size")?;
    Ok(Image::make(size, 255, samples.to_vec(alloc)?).ok_or("samples")?)
}

/// An image of three rows, each of these samples.
pub fn image_of_rows(alloc: Global, row: &[u16; 5]) -> Result<Image, Fail> {
    let rows = [*row, *row, *row].concat(alloc)?;
    image(alloc, (5, 3), rows.as_slice())
}

/// A map with these entries.
pub fn map_of(alloc: Global, size: Size, entries: &[Option<u16>]) -> Result<DispMap, Fail>
    ensures { IfOk result (λ m. (m.width ≡ size.width) × (m.height ≡ size.height)) }
{
    Ok(DispMap::make(size, entries.to_vec(alloc)?).ok_or("entries")?)
}

/// The grid that a text is.
pub fn grid_of(alloc: Global, text: &[u8]) -> Result<Grid, Fail> {
    Ok(read_asc(alloc, text).ok().ok_or("grid")?)
}

/// The calibration whose text has these parts, up to its end.
pub fn calib(alloc: Global, parts: &[&str]) -> Result<Calib, Fail> {
    let mut text = String::new(alloc);
    for part in parts {
        text.push_str(part)?;
    }
    text.push_str(END)?;
    Ok(read(alloc, text.as_bytes()).ok().ok_or("calibration")?)
}
