//! Scenes, parcels, fronts and boards of the worked example.
ghost use Rattle.std.specs.Prelude.{◌≡◌, ℕ, ◌≤◌, false, [], length, slice_get, Some, All, IsTrue};
ghost use Rattle.std.specs.Prelude.{IfOk, IfSome, vec_len};
ghost use Rattle.sgm_base.specs.declared.limits.TheConstants.{MAX_STRIPS, MAX_WORKERS};
ghost use Rattle.sgm_energy.specs.declared.dir.Dir.{Dir};
ghost use Rattle.sgm_energy.specs.Dirs.{is_level, front_of, dir_of_front};
ghost use Rattle.sgm_strip.specs.Parcels.{IsOf, level_done};
ghost use Rattle.sgm_strip.specs.Fronts.{FrontParts};
ghost use Rattle.sgm_strip.specs.Scenes.{row_length};
ghost use Rattle.sgm_strip.specs.Strips.{AreStrips};
ghost use Rattle.sgm_board.specs.Ready.{IsNewFront};
ghost use Rattle.sgm_board.specs.Passes.{new_pass};
ghost use Rattle.sgm_board.specs.Boards.{parts_of, scene_of, passes_of, IsPassOf, AreNew};

use sgm_base::{MAX_STRIPS, MAX_WORKERS, Plane, Size, Span};
use sgm_board::{Board, Pass};
use sgm_census::{CodePlane, CostRule, Window, codes};
use sgm_energy::{Dir, Pen};
use sgm_strip::{Cut, Front, Guide, Parcel, Row, Scene};
use std::alloc::Global;
use std::test::Fail;

/// A row of its left image, and one of its right image.
pub(super) const LEFT: [u16; 5] = [90, 10, 50, 20, 40];

pub(super) const RIGHT: [u16; 5] = [10, 50, 20, 40, 30];

/// The plane of three rows, each of these values.
pub(super) fn plane_of(alloc: Global, row: &[u16; 5]) -> Result<Plane, Fail> {
    let size = Size::make(5, 3).ok_or("size")?;
    let mut entries = Vec::new(alloc);
    for at in 0..15 {
        entries.push(Some(row[at % 5]))?;
    }
    Ok(Plane::make(size, entries).ok_or("entries")?)
}

/// Its codes, with a window of 3 x 3.
fn codes_of(alloc: Global, row: &[u16; 5]) -> Result<CodePlane, Fail> {
    let window = Window::make(3, 3).ok_or("window")?;
    Ok(codes(alloc, &plane_of(alloc, row)?, window, CostRule::Plain)?)
}

/// A guide of that size, which no pen here follows.
fn guide_of(alloc: Global, size: Size) -> Result<Guide, Fail>
    ensures width { IfOk result (λ guide. guide.width ≡ size.width) }
    ensures height { IfOk result (λ guide. guide.height ≡ size.height) }
{
    let blank = Plane::blank(alloc, size)?;
    Ok(Guide::make(alloc, &blank, 1)?)
}

/// Whether two planes of codes have the same sides and the same window.
fn are_alike(left: &CodePlane, right: &CodePlane) -> bool
    ensures width { IsTrue result → left.now.width ≡ right.now.width }
    ensures height { IsTrue result → left.now.height ≡ right.now.height }
    ensures window { IsTrue result → left.now.window ≡ right.now.window }
    ensures rule { IsTrue result → left.now.rule ≡ right.now.rule }
{
    left.size() == right.size() && left.window() == right.window() && left.rule() == right.rule()
}

/// The scene of the worked example.
pub(super) fn scene_of(alloc: Global) -> Result<Scene, Fail> {
    let span = Span::make(0, 2).ok_or("span")?;
    let pen = Pen::make(1, 3).ok_or("pen")?;
    let left = codes_of(alloc, &LEFT)?;
    let right = codes_of(alloc, &RIGHT)?;
    if !are_alike(&left, &right) {
        return Err("sides")?;
    }
    let guide = guide_of(alloc, left.size())?;
    Ok(Scene::make(left, right, span, pen, guide))
}

pub(super) fn parcels_of(alloc: Global, scene: &Scene, cut: Cut) -> Result<Vec<Parcel>, Fail>
    requires { cut.height ≡ scene.now.left.height }
    ensures strips { IfOk result (λ v. AreStrips scene.now cut v.items) }
    ensures level { IfOk result (λ v. All (λ parcel. parcel.done ≡ level_done) v.items) }
    ensures kind { IfOk result (λ v. All (IsOf scene.now cut) v.items) }
{
    let mut parcels = Vec::new(alloc);
    for strip in 0..cut.strips {
        let parcel = Parcel::make(alloc, scene, cut, strip)?;
        parcels.push(parcel)?;
    }
    Ok(parcels)
}

/// The direction of a front.
pub(super) fn dir_of(number: usize) -> Option<Dir>
    ensures dir { IfSome result (λ dir. dir_of_front number ≡ Some dir) }
    ensures across { IfSome result (λ dir. is_level dir ≡ false) }
{
    let dir = Dir::from_front(number)?;
    if dir.is_level() { None } else { Some(dir) }
}

pub(super) fn fronts_of(alloc: Global, scene: &Scene, cut: Cut) -> Result<Vec<Front>, Fail>
    requires { cut.height ≡ scene.now.left.height }
    ensures six { IfOk result (λ v. length v.items ≡ 6) }
    ensures new { IfOk result (λ v. (place : ℕ) (front : FrontParts)
        → slice_get v.items place ≡ Some front
        → (dir : Dir) × (dir_of_front place ≡ Some dir) × IsNewFront scene.now cut dir front) }
{
    let mut fronts = Vec::new(alloc);
    for number in 0..6 {
        let Some(dir) = dir_of(number) else {
            return Err("front")?;
        };
        let front = Front::make(alloc, scene, cut, dir)?;
        fronts.push(front)?;
    }
    Ok(fronts)
}

/// A board of so many strips, or of three, with its passes.
pub(super) fn board_of(
    alloc: Global,
    scene: &Scene,
    strips: u32,
    passes: u32,
) -> Result<(Board, Vec<Pass>), Fail>
    requires strips { (1 ≤ strips) × (strips ≤ MAX_STRIPS) }
    requires passes { (1 ≤ passes) × (passes ≤ MAX_WORKERS) }
    ensures scene { IfOk result (λ made. scene_of made.0 ≡ scene.now) }
    ensures passes { IfOk result (λ made. (passes_of made.0 ≡ passes) × (vec_len made.1 ≡ passes)) }
    ensures new { IfOk result (λ made. AreNew made.0 made.1.items) }
{
    let cut = Cut::even(scene.size().height, strips);
    let parcels = parcels_of(alloc, scene, cut)?;
    let fronts = fronts_of(alloc, scene, cut)?;
    Ok(Board::start(alloc, parcels, fronts, passes)?)
}

/// The only pass of a board.
pub(super) fn only_of(board: &Board, mut passes: Vec<Pass>) -> Result<Pass, Fail>
    requires { (vec_len passes ≡ 1) × AreNew board.now passes.items }
    ensures { IfOk result (λ pass. IsPassOf board.now pass × (parts_of pass ≡ new_pass 0)) }
{
    let _ = board;
    Ok(passes.pop().ok_or("a pass")?)
}

/// The two passes of a board.
fn both_of(board: &Board, mut passes: Vec<Pass>) -> Result<(Pass, Pass), Fail>
    requires { (vec_len passes ≡ 2) × AreNew board.now passes.items }
    ensures first { IfOk result (λ both. IsPassOf board.now both.0
        × (parts_of both.0 ≡ new_pass 0)) }
    ensures second { IfOk result (λ both. IsPassOf board.now both.1
        × (parts_of both.1 ≡ new_pass 1)) }
{
    let _ = board;
    let Some(second) = passes.pop() else {
        return Err("a pass")?;
    };
    let Some(first) = passes.pop() else {
        return Err("a pass")?;
    };
    Ok((first, second))
}

/// A board of so many strips, or of three, and its two passes.
pub(super) fn two_passes(
    alloc: Global,
    scene: &Scene,
    strips: u32,
) -> Result<(Board, Pass, Pass), Fail>
    requires { (1 ≤ strips) × (strips ≤ MAX_STRIPS) }
    ensures scene { IfOk result (λ made. scene_of made.0 ≡ scene.now) }
    ensures passes { IfOk result (λ made. passes_of made.0 ≡ 2) }
    ensures first { IfOk result (λ made. IsPassOf made.0 made.1 × (parts_of made.1 ≡ new_pass 0)) }
    ensures second { IfOk result (λ made. IsPassOf made.0 made.2 × (parts_of made.2 ≡ new_pass 1)) }
{
    let (board, passes) = board_of(alloc, scene, strips, 2)?;
    let (first, second) = both_of(&board, passes)?;
    Ok((board, first, second))
}

/// Room for a row.
pub(super) fn row_of(alloc: Global, scene: &Scene) -> Result<Row, Fail>
    ensures { IfOk result (λ row. row ≡ row_length scene.now) }
{
    Ok(Row::make(alloc, scene.size(), scene.span())?)
}
