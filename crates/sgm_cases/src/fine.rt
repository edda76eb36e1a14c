//! `fine WIDTH HEIGHT FIRST COUNT | LEFT | RIGHT | MAP`: the finer values of a map over two planes,
//! ` | `, and their means. The planes and the map stand there as their values (see `rows`).
//! `tests/fine_cases.py` works the answers out.

ghost use Rattle.std.specs.Prelude.{◌<◌};

use crate::mean::push_means;
use crate::parts::cut;
use crate::rows::{cut_rows, map_of, plane_of, push_values, size_of};
use sgm_base::{DispMap, Plane, Size, Span};
use sgm_fine::finer_row;
use std::alloc::{AllocError, Global};

/// What a case asks for.
#[derive(Drop)]
struct Case {
    left: Plane,
    right: Plane,
    map: DispMap,
    span: Span,
}

impl Case {
    /// The finer values of a row.
    fn finer_of_row(&self, alloc: Global, y: u32) -> Result<Vec<Option<u16>>, AllocError>
        requires { y < self.now.map.height }
    {
        let mut values = vec![in alloc; None; self.map.size().width as usize]?;
        finer_row(
            &self.left,
            &self.right,
            &self.map,
            self.span,
            y,
            values.as_mut_slice(),
        );
        Ok(values)
    }

    /// The finer values of all pixels.
    fn finer(&self, alloc: Global) -> Result<Vec<Option<u16>>, AllocError> {
        let mut values = Vec::new(alloc);
        for y in 0..self.map.size().height {
            let row = self.finer_of_row(alloc, y)?;
            values.extend_from_slice(&row)?;
        }
        Ok(values)
    }
}

/// The disparities that two words tell.
fn span_of(text: &str) -> Option<Span> {
    let (first, count) = cut(text);
    Span::make(first.parse().ok()?, count.parse().ok()?)
}

fn case_of(
    left: Option<Plane>,
    right: Option<Plane>,
    map: Option<DispMap>,
    span: Option<Span>,
) -> Option<Case> {
    Some(Case {
        left: left?,
        right: right?,
        map: map?,
        span: span?,
    })
}

fn read_case(alloc: Global, text: &str) -> Result<Option<Case>, AllocError> {
    let (numbers, rows) = cut_rows(text);
    let (left, rows) = cut_rows(rows);
    let (right, map) = cut_rows(rows);
    match size_of(numbers) {
        Some((size, numbers)) => Ok(case_of(
            plane_of(alloc, size, left)?,
            plane_of(alloc, size, right)?,
            map_of(alloc, size, map)?,
            span_of(numbers),
        )),
        None => Ok(None),
    }
}

/// Adds the values, and the means of the map that they are.
fn push_both(
    alloc: Global,
    text: &mut String,
    size: Size,
    values: Vec<Option<u16>>,
) -> Result<(), AllocError> {
    push_values(text, &values)?;
    text.push_str(" | ")?;
    match DispMap::make(size, values) {
        Some(map) => push_means(alloc, text, &map),
        None => text.push_str("no map"),
    }
}

fn text_of(alloc: Global, case: &Case) -> Result<String, AllocError> {
    let mut text = String::new(alloc);
    push_both(alloc, &mut text, case.map.size(), case.finer(alloc)?)?;
    Ok(text)
}

/// The answer to the case of that text.
pub fn answer(alloc: Global, case: &str) -> Result<String, AllocError> {
    match read_case(alloc, case)? {
        Some(case) => text_of(alloc, &case),
        None => String::from_str(alloc, "no such case"),
    }
}
