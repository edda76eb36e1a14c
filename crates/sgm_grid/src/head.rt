//! The twelve words that stand before the heights.

ghost use Rattle.std.specs.Prelude.{◌≡◌, ◌≤◌, None, IfOk, IfErr, true, false};
ghost use Rattle.sgm_base.specs.Ranges.{IsFromTo};
ghost use Rattle.sgm_grid.specs.declared.asc_fault.AscFault.TheVariants.{Range};
ghost use Rattle.sgm_grid.specs.Asc.{is_from_to};
ghost use Rattle.sgm_grid.specs.Cells.{IsGridSpec};
ghost use Rattle.sgm_grid.specs.Head.{HasLine, HasNumber, HasNumbers, IsRangeFault, IsWordFault};
ghost use Rattle.sgm_grid.specs.Head.{LacksLine, LacksNumber, first_out, spec_told};
ghost use Rattle.sgm_text.specs.Words.{words_of};

use crate::numbers::number;
use crate::{AscFault, GridSpec, MAX_CELL, MAX_PLACE, NO_HEIGHT};
use sgm_base::MAX_GRID_LINES;
use sgm_text::split_word_bytes;

/// The six numbers of a head, each `TOO_GREAT` or its negative where it is further from 0.
#[derive(Clone, Copy)]
pub struct Numbers {
    pub cols: i64,
    pub rows: i64,
    pub west: i64,
    pub south: i64,
    pub cell: i64,
    pub no_height: i64,
}

/// The numbers of the head with which a text begins, and the bytes behind it.
pub fn split_head(text: &[u8]) -> Result<(Numbers, &[u8]), AscFault>
    ensures ok { IfOk result (λ split. HasNumbers (words_of text.now) split.0
        (words_of split.1.now)) }
    ensures err { IfErr result (λ fault. IsWordFault (words_of text.now) fault) }
{
    let (cols, text) = split_line(text, b"ncols", 0)?;
    let (rows, text) = split_line(text, b"nrows", 2)?;
    let (west, text) = split_line(text, b"xllcorner", 4)?;
    let (south, text) = split_line(text, b"yllcorner", 6)?;
    let (cell, text) = split_line(text, b"cellsize", 8)?;
    let (no_height, text) = split_line(text, b"nodata_value", 10)?;
    let numbers = Numbers {
        cols,
        rows,
        west,
        south,
        cell,
        no_height,
    };
    Ok((numbers, text))
}

/// The number behind a name, which has to be the word at the place `at`, and the bytes behind the
/// two.
fn split_line<'a>(text: &'a [u8], name: &[u8], at: usize) -> Result<(i64, &'a [u8]), AscFault>
    requires { at ≤ 10 }
    ensures ok { IfOk result (λ split.
        HasLine name.now (words_of text.now) split.0 (words_of split.1.now)) }
    ensures err { IfErr result (λ fault. LacksLine name.now at (words_of text.now) fault) }
{
    let Some((word, text)) = split_word_bytes(text) else {
        return Err(AscFault::Word { at });
    };
    if !word.eq_ignore_ascii_case(name) {
        return Err(AscFault::Word { at });
    }
    split_number(text, at + 1)
}

/// The number that has to be the word at the place `at`, and the bytes behind it.
fn split_number(text: &[u8], at: usize) -> Result<(i64, &[u8]), AscFault>
    ensures ok { IfOk result (λ split. HasNumber (words_of text.now) split.0
        (words_of split.1.now)) }
    ensures err { IfErr result (λ fault. LacksNumber at (words_of text.now) fault) }
{
    let Some((word, text)) = split_word_bytes(text) else {
        return Err(AscFault::Word { at });
    };
    let Some(value) = number(word) else {
        return Err(AscFault::Word { at });
    };
    Ok((value, text))
}

/// The ranges of which the numbers tell, unless one of the six is out of its range.
pub fn spec_of(numbers: Numbers) -> Result<GridSpec, AscFault>
    ensures ok { IfOk result (λ spec. spec ≡ spec_told numbers) }
    ensures in_range { IfOk result (λ spec. first_out numbers ≡ None) }
    ensures ranges { IfOk result IsGridSpec }
    ensures err { IfErr result (λ fault. IsRangeFault numbers fault) }
{
    let cols = in_range(numbers.cols, 1, MAX_GRID_LINES as i64, 1)?;
    let rows = in_range(numbers.rows, 1, MAX_GRID_LINES as i64, 3)?;
    let west = in_range(numbers.west, -MAX_PLACE, MAX_PLACE, 5)?;
    let south = in_range(numbers.south, -MAX_PLACE, MAX_PLACE, 7)?;
    let cell = in_range(numbers.cell, 1, MAX_CELL, 9)?;
    in_range(numbers.no_height, NO_HEIGHT, NO_HEIGHT, 11)?;
    Ok(GridSpec {
        west,
        south,
        cell,
        cols: cols as u32,
        rows: rows as u32,
    })
}

/// The number at the place `at`, unless it is out of its range.
fn in_range(value: i64, low: i64, high: i64, at: usize) -> Result<i64, AscFault>
    ensures ok { IfOk result (λ n. (n ≡ value) × (is_from_to low high value ≡ true)) }
    ensures range { IfOk result (λ n. IsFromTo low high n) }
    ensures err { IfErr result (λ fault. (fault ≡ Range at) × (is_from_to low high value ≡ false)) }
{
    if low <= value && value <= high {
        Ok(value)
    } else {
        Err(AscFault::Range { at })
    }
}
