//! Reading a grid's text.

ghost use Rattle.std.specs.Prelude.{◌≡◌, ◌+◌, ◌<◌, ◌≤◌, ℕ, List, [], ◌∷◌, drop, length, Some, IfOk};
ghost use Rattle.std.specs.Prelude.{IfSome, MatchOption};
ghost use Rattle.sgm_grid.specs.Asc.{asc_reading, cell_in, cell_told, grid_of, Gives};
ghost use Rattle.sgm_grid.specs.Cells.{IsGridSpec};
ghost use Rattle.sgm_grid.specs.Leading.{leading};
ghost use Rattle.sgm_text.specs.Words.{words_of};

use crate::head::{spec_of, split_head};
use crate::numbers::number;
use crate::{AscError, AscFault, Grid, GridSpec, MAX_HEIGHT, NO_HEIGHT};
use sgm_text::{count_words, split_word_bytes};
use std::alloc::{AllocError, Global};

/// The grid of which a text tells, or its first fault. Words are the longest runs of bytes other
/// than space, TAB, CR and LF. The first twelve are `ncols`, `nrows`, `xllcorner`, `yllcorner`,
/// `cellsize` and `NODATA_value`, in any case of their letters, each with a number behind it; the
/// others are the heights of all cells, row by row from the north, in micrometres, -2147483648
/// where a cell is empty. A number is one or more digits, as many as stand there, with or without a
/// `-` before them. The text is gone over once, and memory is taken for the grid alone.
pub fn read_asc(alloc: Global, bytes: &[u8]) -> Result<Grid, AscError>
    ensures { Gives (asc_reading bytes.now) result }
{
    let (numbers, text) = split_head(bytes)?;
    let spec = spec_of(numbers)?;
    grid_of(alloc, spec, text)
}

/// The grid of these ranges of whose heights a text tells.
fn grid_of(alloc: Global, spec: GridSpec, text: &[u8]) -> Result<Grid, AscError>
    requires { IsGridSpec spec }
    ensures { Gives (grid_of spec (words_of text.now)) result }
{
    let need = spec.cols as usize * spec.rows as usize;
    let (heights, rest) = split_heights(alloc, text, need)?;
    let have = heights.len() + count_words(rest);
    if have != need {
        return Err(AscError::Fault(AscFault::Count { have, need }));
    }
    if heights.len() < need {
        let index = heights.len();
        return Err(AscError::Fault(AscFault::Height { index }));
    }
    Ok(Grid::of_heights(spec, heights))
}

/// The heights with which a text begins, `most` of them at most, and the bytes behind them.
fn split_heights(
    alloc: Global,
    text: &[u8],
    most: usize,
) -> Result<(Vec<Option<i32>>, &[u8]), AllocError>
    ensures heights { IfOk result (λ split. split.0.items ≡ leading most (words_of text.now)) }
    ensures rest { IfOk result
        (λ split. words_of split.1.now ≡ drop (length split.0.items) (words_of text.now)) }
    ensures within { IfOk result
        (λ split. length split.0.items + length split.1.now ≤ length text.now) }
{
    let mut heights = Vec::new(alloc);
    // A height is a byte at least, and has one before it or behind it.
    heights.try_reserve(most.min(text.len() / 2 + 1))?;
    let mut rest = text;
    while heights.len() < most {
        let Some((height, behind)) = split_height(rest) else {
            break;
        };
        heights.push(height)?;
        rest = behind;
    }
    Ok((heights, rest))
}

/// The height that the first word tells, None of an empty cell, and the bytes behind it; None where
/// it tells none.
fn split_height(text: &[u8]) -> Option<(Option<i32>, &[u8])>
    ensures height { MatchOption result ((n : ℕ) → leading n (words_of text.now) ≡ []) (λ split.
        (word : List ℕ) × (words_of text.now ≡ word ∷ words_of split.1.now)
        × (cell_in word ≡ Some split.0)) }
    ensures shorter { IfSome result (λ split. length split.1.now < length text.now) }
{
    let Some((word, rest)) = split_word_bytes(text) else {
        return None;
    };
    let Some(height) = height(word) else {
        return None;
    };
    Some((height, rest))
}

/// The height that a word tells, None of an empty cell; None where it tells none.
fn height(word: &[u8]) -> Option<Option<i32>>
    ensures { result ≡ cell_in word.now }
{
    cell_told(number(word)?)
}

/// The same of a number.
fn cell_told(value: i64) -> Option<Option<i32>>
    ensures { result ≡ cell_told value }
{
    if value == NO_HEIGHT {
        return Some(None);
    }
    if -MAX_HEIGHT <= value && value <= MAX_HEIGHT {
        return Some(Some(value as i32));
    }
    None
}
