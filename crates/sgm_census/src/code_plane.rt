ghost use Rattle.std.specs.Prelude.{◌≡◌, ◌+◌, ◌*◌, ◌<◌, length, map, is_some, unwrap_or};
ghost use Rattle.std.specs.Prelude.{false, replicate, IfOk};
ghost use Rattle.sgm_census.specs.Codes.{Codes, IsCodes, code_by, codes_of};
ghost use Rattle.sgm_census.specs.Packed.{codes_in, IsPacked, HoldsAll, HoldsCodes, HoldsPlain};
ghost use Rattle.sgm_census.specs.Windows.{greatest_of};

use crate::coding::{Coding, Plain};
use crate::rows::{own_rows, shared_rows};
use crate::{CostRule, Window};
use sgm_base::{Plane, Size};
use std::alloc::{AllocError, Global};
use std::marker::Model;
use std::thread::Threads;

/// For each pixel of a plane its census code, or None where a pixel of its window is void or
/// outside.
#[derive(Drop)]
pub struct CodePlane {
    size: Size,
    window: Window,
    rule: CostRule,
    // A pixel's code, its first truth value in the highest bit, or no matter what. Each row from
    // right to left.
    words: Vec<u64>,
    // Whether the pixel has a code, in the order of the words.
    present: Vec<bool>,
}

/// A row of codes as they lie in memory, from right to left.
#[derive(Clone, Copy)]
pub(crate) struct CodeRow<'a> {
    pub(crate) words: &'a [u64],
    pub(crate) present: &'a [bool],
}

impl Model for CodePlane {
    ghost Value = { Codes };

    ghost view = { λ p.
        codes_in p.size.width p.size.height p.window p.rule p.words.items p.present.items };

    ghost invariant = { λ p.
        IsPacked p.size.width p.size.height p.window p.words.items p.present.items };
}

impl CodePlane {
    pub fn size(&self) -> Size
        ensures width { result.width ≡ self.now.width }
        ensures height { result.height ≡ self.now.height }
        ensures kept { IsCodes self.now }
    {
        self.size
    }

    pub fn window(&self) -> Window
        ensures { result ≡ self.now.window }
    {
        self.window
    }

    /// The rule by which the codes were made, and by which costs are made of them.
    pub fn rule(&self) -> CostRule
        ensures { result ≡ self.now.rule }
    {
        self.rule
    }

    /// The codes of the row `y`.
    pub(crate) fn row(&self, y: u32) -> CodeRow<'_>
        requires { y < self.now.height }
        ensures { HoldsCodes self.now y result.words.now result.present.now }
    {
        let width = self.size.width as usize;
        let at = y as usize * width;
        CodeRow {
            words: &self.words[at..at + width],
            present: &self.present[at..at + width],
        }
    }
}

/// A plane's values, row by row, 0 where it is void.
fn values_of(alloc: Global, plane: &Plane) -> Result<Vec<u16>, AllocError>
    ensures { IfOk result (λ v. v.items ≡ map (λ o. unwrap_or o 0) plane.now.entries) }
{
    plane
        .entries()
        .iter()
        .map(|entry| entry.unwrap_or(0))
        .collect(alloc)
}

/// Whether a plane has a value, pixel by pixel.
fn marks_of(alloc: Global, plane: &Plane) -> Result<Vec<bool>, AllocError>
    ensures { IfOk result (λ v. v.items ≡ map is_some plane.now.entries) }
{
    plane
        .entries()
        .iter()
        .map(|entry| entry.is_some())
        .collect(alloc)
}

/// The words and marks of a plane before its codes are written.
fn blank(alloc: Global, size: Size) -> Result<(Vec<u64>, Vec<bool>), AllocError>
    ensures { IfOk result (λ made. (made.0.items ≡ replicate (size.width * size.height) 0)
        × (made.1.items ≡ replicate (size.width * size.height) false)) }
{
    let words = vec![in alloc; 0u64; size.pixels()]?;
    let present = vec![in alloc; false; size.pixels()]?;
    Ok((words, present))
}

/// What a plane holds, as codes are made of it.
fn plain_of<'a>(plane: &Plane, values: &'a [u16], there: &'a [bool]) -> Plain<'a>
    requires values { values.now ≡ map (λ o. unwrap_or o 0) plane.now.entries }
    requires there { there.now ≡ map is_some plane.now.entries }
    ensures { HoldsPlain plane.now result.values.now result.there.now result.width result.height }
{
    let size = plane.size();
    Plain {
        values,
        there,
        width: size.width as usize,
        height: size.height as usize,
    }
}

/// All rows of a plane, to be coded.
fn all_rows<'a>(plane: &'a Plane, plain: Plain<'a>, window: Window, rule: CostRule) -> Coding<'a>
    requires { HoldsPlain plane.now plain.values.now plain.there.now plain.width plain.height }
    ensures plane { result.plane.now ≡ plane.now }
    ensures how { (result.window ≡ window) × (result.rule ≡ rule) }
    ensures rows { (result.first ≡ 0) × (result.rows ≡ plane.now.height) }
{
    // Known from here on: what the plane keeps.
    let size = plane.size();
    Coding {
        plane,
        plain,
        window,
        rule,
        first: 0,
        rows: size.height as usize,
    }
}

/// A plane of codes that are written.
fn filled(
    plane: &Plane,
    window: Window,
    rule: CostRule,
    words: Vec<u64>,
    present: Vec<bool>,
) -> CodePlane
    requires words_length { length words.items ≡ plane.now.width * plane.now.height }
    requires present_length { length present.items ≡ plane.now.width * plane.now.height }
    requires holds { HoldsAll (greatest_of window) plane.now.width plane.now.height
        (λ x r. code_by rule plane.now window x (0 + r)) words.items present.items }
    ensures { result ≡ codes_of plane.now window rule }
{
    // Known from here on: the window's range.
    let _ = &window.width;
    CodePlane {
        size: plane.size(),
        window,
        rule,
        words,
        present,
    }
}

/// The codes of a plane by a rule. A code has a truth value for each pixel of the window round its
/// pixel, row by row without the centre. By the plain rule it says whether that neighbour is less
/// than the centre, and there is none where a pixel of the window is void or outside. By the
/// smoothed rule it says whether the neighbour, or the centre where that is void or outside, is
/// less than the third smallest of the centre and the four pixels beside it, and there is none
/// where the centre is void.
pub fn codes(
    alloc: Global,
    plane: &Plane,
    window: Window,
    rule: CostRule,
) -> Result<CodePlane, AllocError>
    ensures { IfOk result (λ c. c ≡ codes_of plane.now window rule) }
{
    let values = values_of(alloc, plane)?;
    let there = marks_of(alloc, plane)?;
    let (mut words, mut present) = blank(alloc, plane.size())?;
    let plain = plain_of(plane, &values, &there);
    let coding = all_rows(plane, plain, window, rule);
    own_rows(alloc, &coding, words.as_mut_slice(), present.as_mut_slice())?;
    Ok(filled(plane, window, rule, words, present))
}

/// The same, made in at most so many threads.
pub fn codes_by<R: Threads + Sync>(
    rt: &R,
    alloc: Global,
    plane: &Plane,
    window: Window,
    rule: CostRule,
    threads: usize,
) -> Result<CodePlane, AllocError>
    ensures { IfOk result (λ c. c ≡ codes_of plane.now window rule) }
{
    let values = values_of(alloc, plane)?;
    let there = marks_of(alloc, plane)?;
    let (mut words, mut present) = blank(alloc, plane.size())?;
    let plain = plain_of(plane, &values, &there);
    let coding = all_rows(plane, plain, window, rule);
    shared_rows(
        rt,
        alloc,
        &coding,
        threads,
        words.as_mut_slice(),
        present.as_mut_slice(),
    )?;
    Ok(filled(plane, window, rule, words, present))
}
