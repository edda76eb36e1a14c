//! The values of all pixels in one line: row by row, one space between two, and `-` where there is
//! none.

use crate::parts::cut;
use sgm_base::{DispMap, Plane, Size};
use std::alloc::{AllocError, Global};
use std::fmt::{Display, Write};

/// What stands before the first ` | `, and what behind it.
pub fn cut_rows(text: &str) -> (&str, &str) {
    text.split_once(" | ").unwrap_or((text, ""))
}

/// The size that two words tell, and what stands behind them.
pub fn size_of(text: &str) -> Option<(Size, &str)> {
    let (width, rest) = cut(text);
    let (height, rest) = cut(rest);
    let size = Size::make(width.parse().ok()?, height.parse().ok()?)?;
    Some((size, rest))
}

/// The value that a word tells.
fn value_of(word: &str) -> Option<Option<u16>> {
    match word {
        "-" => Some(None),
        _ => match word.parse() {
            Ok(value) => Some(Some(value)),
            Err(_) => None,
        },
    }
}

/// The values that a text tells. None where a word is no value.
fn values_of(alloc: Global, text: &str) -> Result<Option<Vec<Option<u16>>>, AllocError> {
    let mut values = Vec::new(alloc);
    for word in text.split(' ') {
        match value_of(word) {
            Some(value) => values.push(value)?,
            None => return Ok(None),
        }
    }
    Ok(Some(values))
}

/// The plane that a text tells.
pub fn plane_of(alloc: Global, size: Size, text: &str) -> Result<Option<Plane>, AllocError> {
    match values_of(alloc, text)? {
        Some(values) => Ok(Plane::make(size, values)),
        None => Ok(None),
    }
}

/// The map that a text tells.
pub fn map_of(alloc: Global, size: Size, text: &str) -> Result<Option<DispMap>, AllocError> {
    match values_of(alloc, text)? {
        Some(values) => Ok(DispMap::make(size, values)),
        None => Ok(None),
    }
}

/// Adds the values.
pub fn push_values<T: Display>(text: &mut String, values: &[Option<T>]) -> Result<(), AllocError> {
    for (at, value) in values.iter().enumerate() {
        if at > 0 {
            text.push_str(" ")?;
        }
        match value {
            Some(value) => write!(text, "{value}")?,
            None => text.push_str("-")?,
        }
    }
    Ok(())
}
