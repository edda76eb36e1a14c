ghost use Rattle.std.specs.Prelude.{◌≡◌, ◌++◌, ◌<◌, OnOk, OnErr, length};
ghost use Rattle.sgm_grid.specs.Cells.{IsGridSpec};
ghost use Rattle.sgm_grid.specs.Text.{after_spaces, cell_text, corner_text, grid_text, head_text};
ghost use Rattle.sgm_grid.specs.Text.{height_text, row_text, rows_text, size_text};
ghost use Rattle.sgm_text.specs.Texts.{StartsAs, line};

use crate::{Grid, GridSpec};
use itoa::Buffer;
use std::alloc::AllocError;

/// More bytes than the six lines that [`append_head`] adds have.
pub const HEAD_ROOM: usize = 256;

/// The most bytes of a height and what follows it.
const HEIGHT_ROOM: usize = 12;

/// What stands for an empty cell.
const NODATA: &[u8] = b"-2147483648";

/// Adds the grid's text. On Err a part of it may have been added.
pub fn append_text(grid: &Grid, into: &mut Vec<u8>) -> Result<(), AllocError>
    ensures ok { OnOk result (into.new.items ≡ into.old.items ++ grid_text grid.now) }
    ensures err { OnErr result (StartsAs into.old.items into.new.items) }
{
    let spec = grid.spec();
    into.try_reserve(HEAD_ROOM + HEIGHT_ROOM * spec.cols as usize * spec.rows as usize)?;
    append_head(spec, NODATA, into)?;
    append_rows(grid, into)
}

/// Adds the six lines that stand before the rows of a grid's text: the numbers of columns and rows,
/// where the grid lies, a cell's side, and `empty`, which stands for an empty cell. On Err a part
/// of them may have been added.
pub fn append_head(spec: GridSpec, empty: &[u8], into: &mut Vec<u8>) -> Result<(), AllocError>
    requires { IsGridSpec spec }
    ensures ok { OnOk result (into.new.items ≡ into.old.items ++ head_text spec empty.now) }
    ensures err { OnErr result (StartsAs into.old.items into.new.items) }
{
    append_size(spec, into)?;
    append_corner(spec, into)?;
    append_cell(spec, empty, into)
}

/// Adds the lines with the numbers of columns and rows.
fn append_size(spec: GridSpec, into: &mut Vec<u8>) -> Result<(), AllocError>
    ensures ok { OnOk result (into.new.items ≡ into.old.items ++ size_text spec) }
    ensures err { OnErr result (StartsAs into.old.items into.new.items) }
{
    let mut digits = Buffer::new();
    append_line(b"ncols ", digits.format(spec.cols).as_bytes(), into)?;
    append_line(b"nrows ", digits.format(spec.rows).as_bytes(), into)
}

/// Adds the lines on where the grid lies.
fn append_corner(spec: GridSpec, into: &mut Vec<u8>) -> Result<(), AllocError>
    requires { IsGridSpec spec }
    ensures ok { OnOk result (into.new.items ≡ into.old.items ++ corner_text spec) }
    ensures err { OnErr result (StartsAs into.old.items into.new.items) }
{
    let mut digits = Buffer::new();
    append_line(b"xllcorner ", digits.format(spec.west).as_bytes(), into)?;
    append_line(b"yllcorner ", digits.format(spec.south).as_bytes(), into)
}

/// Adds the lines on a cell's side and on what stands for an empty cell.
fn append_cell(spec: GridSpec, empty: &[u8], into: &mut Vec<u8>) -> Result<(), AllocError>
    requires { IsGridSpec spec }
    ensures ok { OnOk result (into.new.items ≡ into.old.items ++ cell_text spec empty.now) }
    ensures err { OnErr result (StartsAs into.old.items into.new.items) }
{
    append_line(
        b"cellsize ",
        Buffer::new().format(spec.cell).as_bytes(),
        into,
    )?;
    append_line(b"NODATA_value ", empty, into)
}

/// Adds the lines of the rows, from the north.
fn append_rows(grid: &Grid, into: &mut Vec<u8>) -> Result<(), AllocError>
    ensures ok { OnOk result (into.new.items ≡ into.old.items ++ rows_text grid.now) }
    ensures err { OnErr result (StartsAs into.old.items into.new.items) }
{
    for row in 0..grid.spec().rows {
        append_row(grid.row(row), into)?;
    }
    Ok(())
}

/// Adds a word, what follows it and a line feed.
fn append_line(word: &[u8], value: &[u8], into: &mut Vec<u8>) -> Result<(), AllocError>
    ensures ok { OnOk result (into.new.items ≡ into.old.items ++ line (word.now ++ value.now)) }
    ensures err { OnErr result (StartsAs into.old.items into.new.items) }
{
    into.extend_from_slice(word)?;
    into.extend_from_slice(value)?;
    into.extend_from_slice(b"\n")
}

/// Adds the line of a row.
fn append_row(heights: &[Option<i32>], into: &mut Vec<u8>) -> Result<(), AllocError>
    requires { 0 < length heights.now }
    ensures ok { OnOk result (into.new.items ≡ into.old.items ++ row_text heights.now) }
    ensures err { OnErr result (StartsAs into.old.items into.new.items) }
{
    append_height(heights[0], into)?;
    append_rest(&heights[1..], into)?;
    into.extend_from_slice(b"\n")
}

/// Adds each height after a space.
fn append_rest(heights: &[Option<i32>], into: &mut Vec<u8>) -> Result<(), AllocError>
    ensures ok { OnOk result (into.new.items ≡ into.old.items ++ after_spaces heights.now) }
    ensures err { OnErr result (StartsAs into.old.items into.new.items) }
{
    for height in heights {
        into.extend_from_slice(b" ")?;
        append_height(*height, into)?;
    }
    Ok(())
}

/// Adds a height, or what stands for an empty cell.
fn append_height(height: Option<i32>, into: &mut Vec<u8>) -> Result<(), AllocError>
    ensures ok { OnOk result (into.new.items ≡ into.old.items ++ height_text height) }
    ensures err { OnErr result (into.new.items ≡ into.old.items) }
{
    match height {
        None => into.extend_from_slice(NODATA),
        Some(height) => into.extend_from_slice(Buffer::new().format(height).as_bytes()),
    }
}
