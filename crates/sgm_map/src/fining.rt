//! From the disparities to finer ones, strip by strip, where they are asked for.

ghost use Rattle.std.specs.Prelude.{◌≡◌, ◌+◌, ◌*◌, ◌<◌, ◌≤◌, IfOk, IfSome, length, map};
ghost use Rattle.std.specs.Prelude.{slice_index_or, None, EachIndex};
ghost use Rattle.sgm_select.specs.Strips.{AreRowsOf, rows_of_strip};
ghost use Rattle.sgm_fine.specs.Making.{made_finer};
ghost use Rattle.sgm_map.specs.Fining.{HoldsMade, made, made_at};

use crate::asked::Asked;
use crate::planes::ScenePlanes;
use sgm_base::{DispMap, MAX_STRIPS, Plane, Span};
use sgm_fine::{finer_row, mean_row};
use sgm_select::join_strips;
use sgm_strip::Cut;
use sgm_threads::side_by_side;
use std::alloc::{AllocError, Global};
use std::thread::Threads;

/// What is made of each value of a map.
#[derive(Clone, Copy)]
enum Step {
    /// The finer one.
    Finer,
    /// The mean of those around it that lie near.
    Mean,
}

/// A step and what it reads: the planes, the map as it was, and the disparities that are tried.
#[derive(Clone, Copy)]
struct Making<'a> {
    step: Step,
    left: &'a Plane,
    right: &'a Plane,
    map: &'a DispMap,
    span: Span,
}

/// Writes what a step makes of the row `y`.
fn make_row(making: &Making, y: u32, into: &mut [Option<u16>])
    requires row { y < making.now.map.now.height }
    requires into_length { length into.old ≡ making.now.map.now.width }
    ensures { EachIndex into.new (λ x. slice_index_or into.new x None
        ≡ made_at making.now.step making.now.left.now making.now.right.now making.now.map.now
        making.now.span x y) }
{
    match making.step {
        Step::Finer => finer_row(making.left, making.right, making.map, making.span, y, into),
        Step::Mean => mean_row(making.map, y, into),
    }
}

/// Writes what a step makes of one of the rows from `first` on to its place among them.
fn make_at(making: &Making, first: u32, place: u32, into: &mut [Option<u16>])
    requires row { first + place < making.now.map.now.height }
    requires inside { (place + 1) * making.now.map.now.width ≤ length into.old }
    ensures { HoldsMade making.now.step making.now.left.now making.now.right.now making.now.map.now
        making.now.span first place into.old
        → HoldsMade making.now.step making.now.left.now making.now.right.now making.now.map.now
        making.now.span first (place + 1) into.new }
{
    let width = making.map.size().width as usize;
    let (_, rest) = into.split_at_mut(place as usize * width);
    let (here, _) = rest.split_at_mut(width);
    make_row(making, first + place, here);
}

/// Writes what a step makes of so many rows from `first` on.
fn make_rows(making: &Making, first: u32, rows: u32, into: &mut [Option<u16>])
    requires rows { first + rows ≤ making.now.map.now.height }
    requires whole { length into.old ≡ rows * making.now.map.now.width }
    ensures { HoldsMade making.now.step making.now.left.now making.now.right.now making.now.map.now
        making.now.span first rows into.new }
{
    for place in 0..rows {
        make_at(making, first, place, into);
    }
}

/// What a step makes of a strip's rows. By itself, since a thread's start would else have its room
/// for samples on the stack once for each thread that it makes.
#[inline(never)]
fn make_strip(
    alloc: Global,
    making: &Making,
    cut: Cut,
    strip: u32,
) -> Result<Vec<Option<u16>>, AllocError>
    requires height { cut.height ≡ making.now.map.now.height }
    requires strip { strip < cut.strips }
    ensures { IfOk result (λ rows. rows.items
        ≡ rows_of_strip (made making.now.step making.now.left.now making.now.right.now
        making.now.map.now making.now.span) cut strip) }
{
    let width = making.map.size().width as usize;
    let (first, rows) = (cut.first(strip), cut.rows(strip));
    let mut entries = vec![in alloc; None; rows as usize * width]?;
    make_rows(making, first, rows, entries.as_mut_slice());
    Ok(entries)
}

/// As [`make_strip`]; None where there is no memory.
fn strip_at(alloc: Global, making: &Making, cut: Cut, strip: usize) -> Option<Vec<Option<u16>>>
    requires height { cut.height ≡ making.now.map.now.height }
    requires strip { strip < cut.strips }
    ensures { IfSome result (λ rows. rows.items
        ≡ rows_of_strip (made making.now.step making.now.left.now making.now.right.now
        making.now.map.now making.now.span) cut strip) }
{
    make_strip(alloc, making, cut, strip as u32).ok()
}

/// What a step makes of each strip's rows, made by at most so many threads.
fn made_strips<R: Threads + Sync>(
    rt: &R,
    alloc: Global,
    making: &Making,
    cut: Cut,
    threads: usize,
) -> Result<Vec<Vec<Option<u16>>>, AllocError>
    requires threads { 0 < threads }
    requires height { cut.height ≡ making.now.map.now.height }
    ensures { IfOk result (λ strips. AreRowsOf (made making.now.step making.now.left.now
        making.now.right.now making.now.map.now making.now.span) cut
        (map (λ rows. rows.items) strips.items)) }
{
    let strips = cut.strips as usize;
    side_by_side(
        rt,
        alloc,
        strips,
        threads,
        &|strip| strip_at(alloc, making, cut, strip),
    )
}

/// What a step makes of a map, made by at most so many threads.
fn made_map<R: Threads + Sync>(
    rt: &R,
    alloc: Global,
    step: Step,
    planes: &ScenePlanes,
    map: DispMap,
    threads: usize,
) -> Result<DispMap, AllocError>
    requires threads { 0 < threads }
    ensures { IfOk result (λ m. m
        ≡ made step planes.now.left planes.now.right map planes.now.scene.span) }
{
    let size = map.size();
    // In as many strips as there can be, so that no thread waits long for the last one.
    let cut = Cut::even(size.height, MAX_STRIPS);
    let making = Making {
        step,
        left: &planes.left,
        right: &planes.right,
        map: &map,
        span: planes.scene.span(),
    };
    let strips = made_strips(rt, alloc, &making, cut, threads)?;
    // What is made takes the place of the map, which is warm, and needs no new memory.
    drop(map);
    join_strips(alloc, size, &strips)
}

/// The map, made finer by the planes where `fine` is true, in at most as many threads as workers
/// are asked for.
pub(crate) fn finer_map<R: Threads + Sync>(
    rt: &R,
    alloc: Global,
    fine: bool,
    planes: &ScenePlanes,
    map: DispMap,
    asked: Asked,
) -> Result<DispMap, AllocError>
    ensures { IfOk result (λ m. m
        ≡ made_finer fine planes.now.left planes.now.right map planes.now.scene.span) }
{
    if !fine {
        return Ok(map);
    }
    let threads = asked.workers as usize;
    let finer = made_map(rt, alloc, Step::Finer, planes, map, threads)?;
    made_map(rt, alloc, Step::Mean, planes, finer, threads)
}
