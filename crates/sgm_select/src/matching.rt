//! From the sums of all strips to the matches of the right image, strip by strip.

ghost use Rattle.std.specs.Prelude.{◌≡◌, ℕ, ◌+◌, ◌*◌, ◌<◌, ◌≤◌, All, IfOk, IfSome, length, map};
ghost use Rattle.std.specs.Prelude.{slice_index_or, None, EachIndex, option_map};
ghost use Rattle.sgm_energy.specs.Energies.{path_sum};
ghost use Rattle.sgm_energy.specs.Rays.{Problem};
ghost use Rattle.sgm_energy.specs.Rows.{HoldsRow};
ghost use Rattle.sgm_strip.specs.Cuts.{CutParts, first_row, rows_of};
ghost use Rattle.sgm_strip.specs.Parcels.{IsComplete};
ghost use Rattle.sgm_strip.specs.Scenes.{problem_of};
ghost use Rattle.sgm_strip.specs.Strips.{AreComplete, AreStrips};
ghost use Rattle.sgm_select.specs.Selection.{matched, matches_of};
ghost use Rattle.sgm_select.specs.Strips.{AreRowsOf, HoldsMatchesFrom, rows_of_strip};

use crate::{join_strips, match_row};
use sgm_base::{DispMap, MAX_COUNT, Span};
use sgm_strip::{Parcel, Scene};
use std::alloc::{AllocError, Global};

/// An index in sixteenths.
fn sixteen_times(index: Option<u16>, count: u32) -> Option<u16>
    requires few { count ≤ MAX_COUNT }
    requires index { IfSome index (λ d. d < count) }
    ensures { result ≡ option_map (λ d. 16 * d) index }
{
    match index {
        Some(index) => Some(16 * index),
        None => None,
    }
}

/// Writes the matches of a row, in sixteenths. What `indices` holds before does not matter.
fn match_sixteenths(sums: &[u16], span: Span, indices: &mut [Option<u16>], into: &mut [Option<u16>])
    requires indices_length { length indices.old ≡ length into.old }
    requires sums_length { length sums.now ≡ length into.old * span.count }
    ensures { (g : Problem) (y : ℕ) → g.count ≡ span.count → g.width ≡ length into.old
        → HoldsRow g y (path_sum g) sums.now
        → EachIndex into.new (λ q. slice_index_or into.new q None
        ≡ option_map (λ d. 16 * d) (matched g span.first q y)) }
{
    let count = span.count;
    match_row(sums, span, indices);
    for q in 0..into.len() {
        into[q] = sixteen_times(indices[q], count);
    }
}

/// Writes the matches of a row to its place among the rows of a strip.
fn match_at(
    sums: &[u16],
    span: Span,
    place: u32,
    indices: &mut [Option<u16>],
    into: &mut [Option<u16>],
)
    requires sums_length { length sums.now ≡ length indices.old * span.count }
    requires inside { (place + 1) * length indices.old ≤ length into.old }
    ensures { (g : Problem) (top y : ℕ) → g.count ≡ span.count → g.width ≡ length indices.old
        → y ≡ top + place
        → HoldsRow g y (path_sum g) sums.now → HoldsMatchesFrom g span.first top place into.old
        → HoldsMatchesFrom g span.first top (place + 1) into.new }
{
    let width = indices.len();
    let (_, rest) = into.split_at_mut(place as usize * width);
    let (here, _) = rest.split_at_mut(width);
    match_sixteenths(sums, span, indices, here);
}

/// Writes the matches of a strip's rows.
fn match_rows(parcel: &Parcel, indices: &mut [Option<u16>], into: &mut [Option<u16>])
    requires complete { IsComplete parcel.now.done }
    requires indices_length { length indices.old ≡ parcel.now.scene.left.width }
    requires whole { length into.old
        ≡ rows_of parcel.now.cut parcel.now.strip * parcel.now.scene.left.width }
    ensures { HoldsMatchesFrom (problem_of parcel.now.scene) parcel.now.scene.span.first
        (first_row parcel.now.cut parcel.now.strip)
        (rows_of parcel.now.cut parcel.now.strip) into.new }
{
    let cut = parcel.cut();
    let strip = parcel.strip();
    let (first, rows) = (cut.first(strip), cut.rows(strip));
    let span = parcel.span();
    for place in 0..rows {
        let y = first + place;
        let sums = parcel.sums_row(y);
        match_at(sums, span, place, indices, into);
    }
}

/// The matches of the pixels of one strip, in sixteenths, row by row.
fn match_strip(alloc: Global, width: usize, parcel: &Parcel) -> Result<Vec<Option<u16>>, AllocError>
    requires width { width ≡ parcel.now.scene.left.width }
    requires some { 0 < width }
    requires complete { IsComplete parcel.now.done }
    ensures exact { IfOk result (λ rows. rows.items ≡ rows_of_strip
        (matches_of (problem_of parcel.now.scene) parcel.now.scene.span.first) parcel.now.cut
        parcel.now.strip) }
{
    let rows = parcel.cut().rows(parcel.strip()) as usize;
    let mut indices = vec![in alloc; None; width]?;
    let mut entries = vec![in alloc; None; rows * width]?;
    match_rows(parcel, indices.as_mut_slice(), entries.as_mut_slice());
    Ok(entries)
}

/// The matches of each strip.
fn match_strips(
    alloc: Global,
    scene: &Scene,
    parcels: &[Parcel],
) -> Result<Vec<Vec<Option<u16>>>, AllocError>
    requires parcels { AreComplete scene.now parcels.now }
    ensures { (cut : CutParts) → AreStrips scene.now cut parcels.now → IfOk result (λ v. AreRowsOf
        (matches_of (problem_of scene.now) scene.now.span.first) cut
        (map (λ rows. rows.items) v.items)) }
{
    let width = scene.size().width as usize;
    let mut strips = Vec::with_capacity(alloc, parcels.len())?;
    for parcel in parcels {
        let rows = match_strip(alloc, width, parcel)?;
        strips.push(rows)?;
    }
    Ok(strips)
}

/// The match of each pixel of the right image, in sixteenths: 16 times the index at which the sum
/// of the pixel that it gives is least, of those whose pixel lies in the row, and None where there
/// is none. The parcels are all strips of the scene in order, each complete.
pub fn matches(alloc: Global, scene: &Scene, parcels: &[Parcel]) -> Result<DispMap, AllocError>
    requires parcels { AreComplete scene.now parcels.now }
    ensures exact { IfOk result (λ m. m ≡ matches_of (problem_of scene.now) scene.now.span.first) }
    ensures indices { IfOk result (λ m. All (λ entry. IfSome entry (λ value.
        (d : ℕ) × (d < scene.now.span.count) × (value ≡ 16 * d))) m.entries) }
{
    let strips = match_strips(alloc, scene, parcels)?;
    join_strips(alloc, scene.size(), &strips)
}
