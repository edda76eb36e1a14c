//! `mean WIDTH HEIGHT | MAP`: the means of the values of a map, which stands there as its values
//! (see `rows`). `tests/fine_cases.py` works the answers out.

ghost use Rattle.std.specs.Prelude.{◌<◌};

use crate::rows::{cut_rows, map_of, push_values, size_of};
use sgm_base::{DispMap, Size};
use sgm_fine::mean_row;
use std::alloc::{AllocError, Global};

/// The means of a row.
fn means_of_row(alloc: Global, map: &DispMap, y: u32) -> Result<Vec<Option<u16>>, AllocError>
    requires { y < map.now.height }
{
    let mut means = vec![in alloc; None; map.size().width as usize]?;
    mean_row(map, y, means.as_mut_slice());
    Ok(means)
}

/// Adds the means of a map.
pub fn push_means(alloc: Global, text: &mut String, map: &DispMap) -> Result<(), AllocError> {
    let mut means = Vec::new(alloc);
    for y in 0..map.size().height {
        let row = means_of_row(alloc, map, y)?;
        means.extend_from_slice(&row)?;
    }
    push_values(text, &means)
}

fn means_text(alloc: Global, map: &DispMap) -> Result<String, AllocError> {
    let mut text = String::new(alloc);
    push_means(alloc, &mut text, map)?;
    Ok(text)
}

fn text_of(alloc: Global, size: Size, rows: &str) -> Result<String, AllocError> {
    match map_of(alloc, size, rows)? {
        Some(map) => means_text(alloc, &map),
        None => String::from_str(alloc, "no such map"),
    }
}

/// The answer to the case of that text.
pub fn answer(alloc: Global, case: &str) -> Result<String, AllocError> {
    let (numbers, rows) = cut_rows(case);
    match size_of(numbers) {
        Some((size, "")) => text_of(alloc, size, rows),
        _ => String::from_str(alloc, "no such size"),
    }
}
