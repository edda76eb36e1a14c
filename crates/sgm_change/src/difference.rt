ghost use Rattle.std.specs.Prelude.{◌≡◌, ◌++◌, ◌<◌, OnOk, OnErr, All, length};
ghost use Rattle.std.specs.List.{zip};
ghost use Rattle.std.specs.Option.{ForSome};
ghost use Rattle.sgm_grid.specs.Cells.{IsHeight};
ghost use Rattle.sgm_text.specs.Texts.{StartsAs};
ghost use Rattle.sgm_change.specs.Texts.{after_spaces, difference_text, grids_text, row_text};
ghost use Rattle.sgm_change.specs.Texts.{rows_text};

use itoa::Buffer;
use sgm_grid::{Grid, HEAD_ROOM, append_head};
use std::alloc::AllocError;

/// The most bytes of a difference and what follows it.
const DIFFERENCE_ROOM: usize = 12;

/// What stands for a cell that hasn't a height in both grids. No difference of two heights is as
/// low.
const NODATA: &[u8] = b"-9999999999";

/// Adds the text of the difference of two grids of the same ranges: six lines on their ranges, then
/// a line for each row from the north, with a space between each two differences. A difference is
/// the later height less the earlier one in micrometres, and -9999999999 where a cell hasn't a
/// height in both. `into` is unchanged on Err.
pub fn write_difference(earlier: &Grid, later: &Grid, into: &mut Vec<u8>) -> Result<(), AllocError>
    requires { earlier.now.spec ≡ later.now.spec }
    ensures ok { OnOk result (into.new.items ≡ into.old.items ++ grids_text earlier.now later.now) }
    ensures err { OnErr result (into.new.items ≡ into.old.items) }
{
    let start = into.len();
    let written = append_text(earlier, later, into);
    if written.is_err() {
        into.truncate(start);
    }
    written
}

/// Adds the text of the difference. On Err a part of it may have been added.
fn append_text(earlier: &Grid, later: &Grid, into: &mut Vec<u8>) -> Result<(), AllocError>
    requires { earlier.now.spec ≡ later.now.spec }
    ensures ok { OnOk result (into.new.items ≡ into.old.items ++ grids_text earlier.now later.now) }
    ensures err { OnErr result (StartsAs into.old.items into.new.items) }
{
    let spec = earlier.spec();
    into.try_reserve(HEAD_ROOM + DIFFERENCE_ROOM * spec.cols as usize * spec.rows as usize)?;
    append_head(spec, NODATA, into)?;
    append_rows(earlier, later, into)
}

/// Adds the lines of the rows, from the north.
#[tactic(auto, using(sgm_text::proofs::Beginnings::starts_on, sgm_text::proofs::Beginnings::starts_append))]
fn append_rows(earlier: &Grid, later: &Grid, into: &mut Vec<u8>) -> Result<(), AllocError>
    requires { earlier.now.spec ≡ later.now.spec }
    ensures ok { OnOk result
        (into.new.items ≡ into.old.items ++ rows_text earlier.now later.now earlier.now.spec.rows) }
    ensures err { OnErr result (StartsAs into.old.items into.new.items) }
{
    for row in 0..earlier.spec().rows {
        append_row(earlier.row(row), later.row(row), into)?;
    }
    Ok(())
}

/// Adds the line of a row.
fn append_row(
    earlier: &[Option<i32>],
    later: &[Option<i32>],
    into: &mut Vec<u8>,
) -> Result<(), AllocError>
    requires some { 0 < length earlier.now }
    requires lengths { length later.now ≡ length earlier.now }
    requires earlier { All (λ height. ForSome height IsHeight) earlier.now }
    requires later { All (λ height. ForSome height IsHeight) later.now }
    ensures ok { OnOk result (into.new.items
        ≡ into.old.items ++ row_text (zip earlier.now later.now)) }
    ensures err { OnErr result (StartsAs into.old.items into.new.items) }
{
    append_difference(earlier[0], later[0], into)?;
    append_rest(&earlier[1..], &later[1..], into)?;
    into.extend_from_slice(b"\n")
}

/// Adds each difference after a space.
#[tactic(auto, using(sgm_text::proofs::Beginnings::starts_on, sgm_text::proofs::Beginnings::starts_append))]
fn append_rest(
    earlier: &[Option<i32>],
    later: &[Option<i32>],
    into: &mut Vec<u8>,
) -> Result<(), AllocError>
    requires lengths { length later.now ≡ length earlier.now }
    requires earlier { All (λ height. ForSome height IsHeight) earlier.now }
    requires later { All (λ height. ForSome height IsHeight) later.now }
    ensures ok { OnOk result (into.new.items
        ≡ into.old.items ++ after_spaces (zip earlier.now later.now)) }
    ensures err { OnErr result (StartsAs into.old.items into.new.items) }
{
    for (before, after) in earlier.iter().zip(later) {
        into.extend_from_slice(b" ")?;
        append_difference(*before, *after, into)?;
    }
    Ok(())
}

/// Adds a cell's difference, or what stands for a cell that hasn't a height in both.
fn append_difference(
    earlier: Option<i32>,
    later: Option<i32>,
    into: &mut Vec<u8>,
) -> Result<(), AllocError>
    requires earlier { ForSome earlier IsHeight }
    requires later { ForSome later IsHeight }
    ensures ok { OnOk result (into.new.items ≡ into.old.items ++ difference_text earlier later) }
    ensures err { OnErr result (into.new.items ≡ into.old.items) }
{
    match (earlier, later) {
        (Some(before), Some(after)) => {
            let over = after as i64 - before as i64;
            into.extend_from_slice(Buffer::new().format(over).as_bytes())
        }
        _ => into.extend_from_slice(NODATA),
    }
}
