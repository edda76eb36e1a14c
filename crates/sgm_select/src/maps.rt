//! From the sums of all strips to the disparities of the left image, strip by strip.

ghost use Rattle.std.specs.Prelude.{◌≡◌, ℕ, ◌+◌, ◌*◌, ◌<◌, ◌≤◌, IfOk, length, map, slice_index_or};
ghost use Rattle.std.specs.Prelude.{None, EachIndex};
ghost use Rattle.sgm_base.specs.declared.limits.TheConstants.{MAX_DISPARITY};
ghost use Rattle.sgm_base.specs.Values.{Values, row_of, AtMost};
ghost use Rattle.sgm_energy.specs.Energies.{path_sum};
ghost use Rattle.sgm_energy.specs.Rays.{Problem, pixel_at};
ghost use Rattle.sgm_energy.specs.Rows.{HoldsRow};
ghost use Rattle.sgm_strip.specs.Cuts.{CutParts, first_row, rows_of};
ghost use Rattle.sgm_strip.specs.Parcels.{IsComplete};
ghost use Rattle.sgm_strip.specs.Scenes.{problem_of};
ghost use Rattle.sgm_strip.specs.Strips.{AreComplete, AreStrips};
ghost use Rattle.sgm_select.specs.Selection.{disparity, disparities_of};
ghost use Rattle.sgm_select.specs.Strips.{AreRowsOf, HoldsFrom, SuitsPlane, rows_of_strip};

use crate::{base_row, check_row, match_row};
use sgm_base::{DispMap, Plane, Size, Span};
use sgm_strip::{Parcel, Scene};
use std::alloc::{AllocError, Global};

/// The planes of both images, of one size, and the disparities that are tried.
#[derive(Clone, Copy)]
struct Planes<'a> {
    left: &'a Plane,
    right: &'a Plane,
    span: Span,
    ghost same_width: { left.now.width ≡ right.now.width },
    ghost same_height: { left.now.height ≡ right.now.height },
}

/// Room for the indices of a row of each image. What it holds before does not matter.
#[derive(Drop)]
struct Indices {
    bases: Vec<u16>,
    matches: Vec<Option<u16>>,
    ghost same_length: { length matches.items ≡ length bases.items },
}

/// Writes the disparities of a row.
fn select_row(
    sums: &[u16],
    left: &[Option<u16>],
    right: &[Option<u16>],
    span: Span,
    indices: &mut Indices,
    into: &mut [Option<u16>],
)
    requires indices_length { length indices.old.bases.items ≡ length into.old }
    requires left_length { length left.now ≡ length into.old }
    requires right_length { length right.now ≡ length into.old }
    requires sums_length { length sums.now ≡ length into.old * span.count }
    ensures room { length indices.new.bases.items ≡ length indices.old.bases.items }
    ensures exact { (g : Problem) (y : ℕ) (left_plane right_plane : Values) → g.count ≡ span.count
        → g.width ≡ length into.old → y < g.height
        → HoldsRow g y (path_sum g) sums.now → SuitsPlane g left_plane → SuitsPlane g right_plane
        → left.now ≡ row_of left_plane y → right.now ≡ row_of right_plane y
        → EachIndex into.new (λ x. slice_index_or into.new x None
        ≡ disparity g left_plane right_plane span.first (pixel_at x y)) }
{
    base_row(sums, span.count as usize, &mut indices.bases);
    match_row(sums, span, &mut indices.matches);
    check_row(
        sums,
        &indices.bases,
        &indices.matches,
        left,
        right,
        span,
        into,
    );
}

/// Writes the disparities of the row `y` to their place among the rows of a strip.
fn select_at(
    sums: &[u16],
    planes: &Planes,
    y: u32,
    place: u32,
    indices: &mut Indices,
    into: &mut [Option<u16>],
)
    requires row { y < planes.now.left.now.height }
    requires indices_length { length indices.old.bases.items ≡ planes.now.left.now.width }
    requires sums_length { length sums.now ≡ planes.now.left.now.width * planes.now.span.count }
    requires inside { (place + 1) * planes.now.left.now.width ≤ length into.old }
    ensures room { length indices.new.bases.items ≡ length indices.old.bases.items }
    ensures exact { (g : Problem) (top : ℕ) → g.count ≡ planes.now.span.count
        → SuitsPlane g planes.now.left.now
        → y ≡ top + place
        → HoldsRow g y (path_sum g) sums.now
        → HoldsFrom g planes.now.left.now planes.now.right.now planes.now.span.first top place
        into.old
        → HoldsFrom g planes.now.left.now planes.now.right.now planes.now.span.first top (place + 1)
        into.new }
{
    let width = planes.left.size().width as usize;
    let (_, rest) = into.split_at_mut(place as usize * width);
    let (here, _) = rest.split_at_mut(width);
    let (left, right) = (planes.left.row(y), planes.right.row(y));
    select_row(sums, left, right, planes.span, indices, here);
}

/// Writes the disparities of a strip's rows.
fn select_rows(parcel: &Parcel, planes: &Planes, indices: &mut Indices, into: &mut [Option<u16>])
    requires complete { IsComplete parcel.now.done }
    requires span { planes.now.span ≡ parcel.now.scene.span }
    requires width { planes.now.left.now.width ≡ parcel.now.scene.left.width }
    requires height { planes.now.left.now.height ≡ parcel.now.scene.left.height }
    requires indices_length { length indices.old.bases.items ≡ planes.now.left.now.width }
    requires whole { length into.old
        ≡ rows_of parcel.now.cut parcel.now.strip * planes.now.left.now.width }
    ensures { HoldsFrom (problem_of parcel.now.scene) planes.now.left.now planes.now.right.now
        parcel.now.scene.span.first
        (first_row parcel.now.cut parcel.now.strip)
        (rows_of parcel.now.cut parcel.now.strip) into.new }
{
    let cut = parcel.cut();
    let strip = parcel.strip();
    let (first, rows) = (cut.first(strip), cut.rows(strip));
    for place in 0..rows {
        let y = first + place;
        let sums = parcel.sums_row(y);
        select_at(sums, planes, y, place, indices, into);
    }
}

/// The disparities of the pixels of one strip, row by row: what [`select`] gives for its rows. The
/// parcel is complete, and the planes have its scene's size. Strips can be selected in any order
/// and side by side.
pub fn select_strip(
    alloc: Global,
    left: &Plane,
    right: &Plane,
    parcel: &Parcel,
) -> Result<Vec<Option<u16>>, AllocError>
    requires left_width { left.now.width ≡ parcel.now.scene.left.width }
    requires left_height { left.now.height ≡ parcel.now.scene.left.height }
    requires right_width { right.now.width ≡ parcel.now.scene.left.width }
    requires right_height { right.now.height ≡ parcel.now.scene.left.height }
    requires complete { IsComplete parcel.now.done }
    ensures exact { IfOk result (λ rows. rows.items ≡ rows_of_strip
        (disparities_of
        (problem_of parcel.now.scene) left.now right.now parcel.now.scene.span.first)
        parcel.now.cut parcel.now.strip) }
{
    let width = left.size().width as usize;
    let rows = parcel.cut().rows(parcel.strip()) as usize;
    let bases = vec![in alloc; 0u16; width]?;
    let matches = vec![in alloc; None; width]?;
    let mut indices = Indices { bases, matches };
    let mut entries = vec![in alloc; None; rows * width]?;
    let span = parcel.span();
    let planes = Planes { left, right, span };
    select_rows(parcel, &planes, &mut indices, entries.as_mut_slice());
    Ok(entries)
}

/// The rows of all strips, one after the other.
fn joined(
    alloc: Global,
    pixels: usize,
    strips: &[Vec<Option<u16>>],
) -> Result<Vec<Option<u16>>, AllocError>
    ensures { (whole : Values) (cut : CutParts)
        → AreRowsOf whole cut (map (λ v. v.items) strips.now)
        → IfOk result (λ entries. entries.items ≡ whole.entries) }
{
    let mut entries = Vec::with_capacity(alloc, pixels)?;
    for rows in strips {
        entries.extend_from_slice(rows)?;
    }
    Ok(entries)
}

/// The map of this size whose strips have these rows, as [`select_strip`] gives them: those of all
/// strips of a cut, in order.
pub fn join_strips(
    alloc: Global,
    size: Size,
    strips: &[Vec<Option<u16>>],
) -> Result<DispMap, AllocError>
    requires rows { (whole : Values) × (cut : CutParts)
        × AreRowsOf whole cut (map (λ v. v.items) strips.now)
        × (size.width ≡ whole.width) × (size.height ≡ whole.height) }
    ensures exact { (whole : Values) (cut : CutParts)
        → AreRowsOf whole cut (map (λ v. v.items) strips.now)
        → size.width ≡ whole.width → size.height ≡ whole.height → IfOk result (λ m. m ≡ whole) }
{
    let entries = joined(alloc, size.pixels(), strips)?;
    let Some(map) = DispMap::make(size, entries) else {
        unreachable!()
    };
    Ok(map)
}

/// The disparities of each strip.
fn select_strips(
    alloc: Global,
    scene: &Scene,
    left: &Plane,
    right: &Plane,
    parcels: &[Parcel],
) -> Result<Vec<Vec<Option<u16>>>, AllocError>
    requires left_width { left.now.width ≡ scene.now.left.width }
    requires left_height { left.now.height ≡ scene.now.left.height }
    requires right_width { right.now.width ≡ scene.now.left.width }
    requires right_height { right.now.height ≡ scene.now.left.height }
    requires parcels { AreComplete scene.now parcels.now }
    ensures { (cut : CutParts) → AreStrips scene.now cut parcels.now → IfOk result (λ v. AreRowsOf
        (disparities_of (problem_of scene.now) left.now right.now scene.now.span.first) cut
        (map (λ rows. rows.items) v.items)) }
{
    let mut strips = Vec::with_capacity(alloc, parcels.len())?;
    for parcel in parcels {
        let rows = select_strip(alloc, left, right, parcel)?;
        strips.push(rows)?;
    }
    Ok(strips)
}

/// The disparity of each pixel of the left image, in sixteenths: the index at which its sum is
/// least and its offset by the sums beside it, where the left-right check leaves it. The planes
/// have the scene's size, and the parcels are all strips of the scene in order, each complete.
pub fn select(
    alloc: Global,
    scene: &Scene,
    left: &Plane,
    right: &Plane,
    parcels: &[Parcel],
) -> Result<DispMap, AllocError>
    requires left_width { left.now.width ≡ scene.now.left.width }
    requires left_height { left.now.height ≡ scene.now.left.height }
    requires right_width { right.now.width ≡ scene.now.left.width }
    requires right_height { right.now.height ≡ scene.now.left.height }
    requires parcels { AreComplete scene.now parcels.now }
    ensures exact { IfOk result (λ m. m
        ≡ disparities_of (problem_of scene.now) left.now right.now scene.now.span.first) }
    ensures bound { IfOk result (λ m. AtMost MAX_DISPARITY m.entries) }
{
    let strips = select_strips(alloc, scene, left, right, parcels)?;
    join_strips(alloc, scene.size(), &strips)
}
