//! The objects that stand in a calibration file and hold no other.

ghost use Rattle.std.specs.Prelude.{◌≡◌, [], ◌∷◌, ◌≤ℤ◌, ◌%◌, ◌==◌, pos, unsigned_abs};
ghost use Rattle.std.specs.Prelude.{IsTrue, IfOk, OnOk, IfErr, IfSome, Some, None, is_some};
ghost use Rattle.std.specs.Prelude.{unwrap_or};
ghost use Rattle.serde_json.specs.View.{view};
ghost use Rattle.serde_json.specs.Find.{get};
ghost use Rattle.sgm_base.specs.declared.limits.TheConstants.{MIN_FIRST, MAX_FIRST, MAX_COUNT};
ghost use Rattle.sgm_base.specs.declared.limits.TheConstants.{MAX_PENALTY, MIN_WINDOW_SIDE};
ghost use Rattle.sgm_base.specs.declared.limits.TheConstants.{MAX_WINDOW_WIDTH};
ghost use Rattle.sgm_base.specs.declared.limits.TheConstants.{MAX_WINDOW_HEIGHT};
ghost use Rattle.sgm_height.specs.Camera.{IsCamera};
ghost use Rattle.sgm_grid.specs.Cells.{IsGridSpec};
ghost use Rattle.sgm_grid.specs.Keeping.{IsGridding};
ghost use Rattle.sgm_grid.specs.declared.keep.Keep.TheVariants.{Highest};
ghost use Rattle.sgm_energy.specs.Pens.{penalties_of as seen};
ghost use Rattle.sgm_calib.specs.Keeps.{keep_named};
ghost use Rattle.sgm_calib.specs.Table as table;
ghost use Rattle.sgm_calib.specs.Rows.{number_of, count_of, truth_of, IsCount, meant, form_meant};
ghost use Rattle.sgm_calib.specs.Rows.{presence_meant};
ghost use Rattle.sgm_calib.specs.Checks.{key_fault, keys_fault, text_of, value_of, sort_of};
ghost use Rattle.sgm_calib.specs.Table.{given_rows, rows_in, span_of, window_of, penalties_of};
ghost use Rattle.sgm_calib.specs.Table.{camera_of, grid_of};
ghost use Rattle.sgm_calib.specs.Judge.{section_fault, camera_in, grid_in, gridding_in};
ghost use Rattle.sgm_calib.specs.Judge.{gridding_of};

use crate::checks::{
    check_numbers, count_at, is_given, is_since, key_at, number_at, object_in, odd_or_whole,
    sort_of, text, truth, truth_at, whole,
};
use crate::keep::keep_named;
use crate::keys::CalibFault;
use crate::place::PLAIN;
use crate::sort::Sort;
use crate::table::{
    ADAPT, BRIDGE, CAMERA, CAMERA_KEYS, CENSUS, CENSUS_KEYS, DISPARITIES, DISPARITIES_KEYS, FINE,
    GRID, GRID_KEYS, KEEP, PENALTIES, PENALTIES_KEYS,
};
use serde_json::Value;
use sgm_base::Span;
use sgm_census::Window;
use sgm_energy::Pen;
use sgm_grid::{GridSpec, Gridding, Keep};
use sgm_height::Camera;

#[tactic(auto, using(std::proofs::lemmas::Int::ints))]
fn span(first: i64, count: i64) -> Span
    requires first_low { MIN_FIRST ≤ℤ first }
    requires first_high { first ≤ℤ MAX_FIRST }
    requires count_low { pos 1 ≤ℤ count }
    requires count_high { count ≤ℤ pos MAX_COUNT }
    ensures { result ≡ record { first = first; count = unsigned_abs count } }
{
    Span {
        first: first as i32,
        count: count as u32,
    }
}

/// Checks the key that says whether disparities are made finer, where disparities of that sort are
/// given it.
fn check_fine(object: &Value, sort: Sort) -> Result<(), CalibFault>
    ensures ok { OnOk result (keys_fault PLAIN (view object.now) (given_rows sort (table.fine ∷ []))
        ≡ None) }
    ensures fault { IfErr result
        (λ f. keys_fault PLAIN (view object.now) (given_rows sort (table.fine ∷ [])) ≡ Some f) }
{
    let row = &FINE;
    if is_given(row, sort) {
        truth(object, row, PLAIN)?;
    }
    Ok(())
}

/// The disparities that an object of that sort is, once its names are known.
fn span_of(object: &Value, sort: Sort) -> Result<Span, CalibFault>
    ensures ok { OnOk result (keys_fault PLAIN (view object.now) (rows_in table.disparities sort)
        ≡ None) }
    ensures value { IfOk result (λ span. span ≡ span_of (view object.now)) }
    ensures fault { IfErr result
        (λ f. keys_fault PLAIN (view object.now) (rows_in table.disparities sort) ≡ Some f) }
{
    let [first, count, _] = &DISPARITIES_KEYS;
    let first = whole(object, first, PLAIN)?;
    let count = whole(object, count, PLAIN)?;
    check_fine(object, sort)?;
    Ok(span(first, count))
}

/// The disparities that are tried.
#[tactic(auto, unfolding(crate::specs::Judge::section_fault))]
pub fn disparities(top: &Value) -> Result<Span, CalibFault>
    ensures ok { OnOk result (section_fault (view top.now) table.disparities ≡ None) }
    ensures value { IfOk result
        (λ span. span ≡ span_of (value_of table.disparities (view top.now))) }
    ensures fault { IfErr result (λ f. section_fault (view top.now) table.disparities ≡ Some f) }
{
    let found = object_in(top, &DISPARITIES)?;
    let Some(object) = found else { unreachable!() };
    span_of(object, sort_of(top))
}

/// Whether the disparities of a value are made finer.
pub fn fine(top: &Value) -> bool
    ensures { result ≡ truth_of table.fine (value_of table.disparities (view top.now)) }
{
    match top.get(DISPARITIES.name) {
        None => false,
        Some(object) => truth_at(object, FINE.name),
    }
}

#[tactic(auto, using(std::proofs::lemmas::Int::ints))]
fn sides(width: i64, height: i64) -> Window
    requires width_low { pos MIN_WINDOW_SIDE ≤ℤ width }
    requires width_high { width ≤ℤ pos MAX_WINDOW_WIDTH }
    requires width_odd { IsTrue (unsigned_abs width % 2 == 1) }
    requires height_low { pos MIN_WINDOW_SIDE ≤ℤ height }
    requires height_high { height ≤ℤ pos MAX_WINDOW_HEIGHT }
    requires height_odd { IsTrue (unsigned_abs height % 2 == 1) }
    ensures { result ≡ record { width = unsigned_abs width; height = unsigned_abs height } }
{
    Window {
        width: width as u32,
        height: height as u32,
    }
}

/// The window that an object is, once its names are known.
fn window_of(object: &Value) -> Result<Window, CalibFault>
    ensures ok { OnOk result (keys_fault PLAIN (view object.now) table.census_keys ≡ None) }
    ensures value { IfOk result (λ window. window ≡ window_of (view object.now)) }
    ensures fault { IfErr result
        (λ f. keys_fault PLAIN (view object.now) table.census_keys ≡ Some f) }
{
    let [width, height] = &CENSUS_KEYS;
    let width = odd_or_whole(object, width, PLAIN)?;
    let height = odd_or_whole(object, height, PLAIN)?;
    Ok(sides(width, height))
}

/// The window of the census transform.
#[tactic(auto, unfolding(crate::specs::Judge::section_fault))]
pub fn census(top: &Value) -> Result<Window, CalibFault>
    ensures ok { OnOk result (section_fault (view top.now) table.census ≡ None) }
    ensures value { IfOk result
        (λ window. window ≡ window_of (value_of table.census (view top.now))) }
    ensures fault { IfErr result (λ f. section_fault (view top.now) table.census ≡ Some f) }
{
    let found = object_in(top, &CENSUS)?;
    let Some(object) = found else { unreachable!() };
    window_of(object)
}

#[tactic(auto, using(std::proofs::lemmas::Int::ints))]
fn pen(p1: i64, p2: i64, adaptive: bool) -> Pen
    requires low { pos 1 ≤ℤ p1 }
    requires ordered { p1 ≤ℤ p2 }
    requires high { p2 ≤ℤ pos MAX_PENALTY }
    ensures { seen result ≡ record {
      p1 = unsigned_abs p1;
      p2 = unsigned_abs p2;
      adaptive = adaptive;
    } }
{
    let (p1, p2) = (p1 as u16, p2 as u16);
    let made = if adaptive {
        Pen::adaptive(p1, p2)
    } else {
        Pen::make(p1, p2)
    };
    let Some(pen) = made else { unreachable!() };
    pen
}

/// Checks the key that says whether P2 follows the image, where penalties of that sort are given
/// it.
fn check_adapt(object: &Value, sort: Sort) -> Result<(), CalibFault>
    ensures ok { OnOk result (keys_fault PLAIN (view object.now)
        (given_rows sort (table.adapt ∷ [])) ≡ None) }
    ensures fault { IfErr result
        (λ f. keys_fault PLAIN (view object.now) (given_rows sort (table.adapt ∷ [])) ≡ Some f) }
{
    let row = &ADAPT;
    if is_given(row, sort) {
        truth(object, row, PLAIN)?;
    }
    Ok(())
}

/// The penalties that an object of that sort is, once its names are known.
fn pen_of(object: &Value, sort: Sort) -> Result<Pen, CalibFault>
    ensures ok { OnOk result (keys_fault PLAIN (view object.now) (rows_in table.penalties sort)
        ≡ None) }
    ensures value { IfOk result (λ pen. seen pen ≡ penalties_of (view object.now)) }
    ensures fault { IfErr result
        (λ f. keys_fault PLAIN (view object.now) (rows_in table.penalties sort) ≡ Some f) }
{
    let [p1, p2, adapt] = &PENALTIES_KEYS;
    let p1 = whole(object, p1, PLAIN)?;
    let p2 = whole(object, p2, PLAIN)?;
    check_adapt(object, sort)?;
    Ok(pen(p1, p2, truth_at(object, adapt.name)))
}

/// The penalties of a change of the disparity.
#[tactic(auto, unfolding(crate::specs::Judge::section_fault))]
pub fn penalties(top: &Value) -> Result<Pen, CalibFault>
    ensures ok { OnOk result (section_fault (view top.now) table.penalties ≡ None) }
    ensures value { IfOk result
        (λ pen. seen pen ≡ penalties_of (value_of table.penalties (view top.now))) }
    ensures fault { IfErr result (λ f. section_fault (view top.now) table.penalties ≡ Some f) }
{
    let found = object_in(top, &PENALTIES)?;
    let Some(object) = found else { unreachable!() };
    pen_of(object, sort_of(top))
}

/// The camera that an object without a fault is.
#[tactic(auto, unfolding(crate::specs::Table::camera_of))]
fn camera_at(object: &Value) -> Camera
    ensures { result ≡ camera_of (view object.now) }
{
    let [focal, baseline, cx, cy, doffs, mount, near, far] = &CAMERA_KEYS;
    Camera {
        focal: number_at(object, focal.name),
        baseline: number_at(object, baseline.name),
        cx: number_at(object, cx.name),
        cy: number_at(object, cy.name),
        doffs: number_at(object, doffs.name),
        mount: number_at(object, mount.name),
        near: number_at(object, near.name),
        far: number_at(object, far.name),
    }
}

/// The camera that an object is, once its names are known.
fn camera_of(object: &Value) -> Result<Camera, CalibFault>
    ensures ok { OnOk result (keys_fault PLAIN (view object.now) table.camera_keys ≡ None) }
    ensures value { IfOk result (λ c. c ≡ camera_of (view object.now)) }
    ensures fault { IfErr result
        (λ f. keys_fault PLAIN (view object.now) table.camera_keys ≡ Some f) }
{
    check_numbers(object, &CAMERA_KEYS, PLAIN)?;
    Ok(camera_at(object))
}

/// The camera, where there is one.
#[tactic(auto, unfolding(crate::specs::Judge::section_fault, crate::specs::Judge::camera_in))]
pub fn camera(top: &Value) -> Result<Option<Camera>, CalibFault>
    ensures ok { OnOk result (section_fault (view top.now) table.camera ≡ None) }
    ensures value { IfOk result (λ c. c ≡ camera_in (view top.now)) }
    ensures kept { IfOk result (λ c. IfSome c IsCamera) }
    ensures asked { IfOk result
        (λ c. IfSome (get table.grid.name (view top.now)) (λ _. IsTrue (is_some c))) }
    ensures fault { IfErr result (λ f. section_fault (view top.now) table.camera ≡ Some f) }
{
    let found = object_in(top, &CAMERA)?;
    match found {
        None => Ok(None),
        Some(object) => {
            let camera = camera_of(object)?;
            Ok(Some(camera))
        }
    }
}

/// The grid that an object without a fault is.
#[tactic(auto, unfolding(crate::specs::Table::grid_of))]
fn grid_at(object: &Value) -> GridSpec
    requires cols { IsCount (number_of table.grid_cols (view object.now)) }
    requires rows { IsCount (number_of table.grid_rows (view object.now)) }
    ensures { result ≡ grid_of (view object.now) }
{
    let [west, south, cell, cols, rows] = &GRID_KEYS;
    GridSpec {
        west: number_at(object, west.name),
        south: number_at(object, south.name),
        cell: number_at(object, cell.name),
        cols: count_at(object, cols.name),
        rows: count_at(object, rows.name),
    }
}

/// Checks the key that says what cells keep of their points.
fn check_keep(object: &Value) -> Result<(), CalibFault>
    ensures ok { OnOk result (key_fault PLAIN (view object.now) table.keep ≡ None) }
    ensures fault { IfErr result (λ f. key_fault PLAIN (view object.now) table.keep ≡ Some f) }
{
    let row = &KEEP;
    let name = text(object, row, PLAIN)?;
    match keep_named(name) {
        None => Err(CalibFault::Range(key_at(row, PLAIN))),
        Some(_) => Ok(()),
    }
}

/// Checks the keys that say how points become heights, where a grid of that sort is given them.
fn check_gridding(object: &Value, sort: Sort) -> Result<(), CalibFault>
    ensures ok { OnOk result
        (keys_fault PLAIN (view object.now) (given_rows sort table.gridding_keys) ≡ None) }
    ensures fault { IfErr result (λ f.
        keys_fault PLAIN (view object.now) (given_rows sort table.gridding_keys) ≡ Some f) }
{
    if is_since(3, sort) {
        check_keep(object)?;
        whole(object, &BRIDGE, PLAIN)?;
    }
    Ok(())
}

/// The grid that an object of that sort is, once its names are known.
fn grid_of(object: &Value, sort: Sort) -> Result<GridSpec, CalibFault>
    ensures ok { OnOk result (keys_fault PLAIN (view object.now) (rows_in table.grid sort) ≡ None) }
    ensures value { IfOk result (λ g. g ≡ grid_of (view object.now)) }
    ensures kept { IfOk result IsGridSpec }
    ensures fault { IfErr result (λ f.
        keys_fault PLAIN (view object.now) (rows_in table.grid sort) ≡ Some f) }
{
    check_numbers(object, &GRID_KEYS, PLAIN)?;
    check_gridding(object, sort)?;
    Ok(grid_at(object))
}

/// The grid, where there is one.
#[tactic(auto, unfolding(crate::specs::Judge::section_fault, crate::specs::Judge::grid_in))]
pub fn grid(top: &Value) -> Result<Option<GridSpec>, CalibFault>
    ensures ok { OnOk result (section_fault (view top.now) table.grid ≡ None) }
    ensures value { IfOk result (λ g. g ≡ grid_in (view top.now)) }
    ensures kept { IfOk result (λ g. IfSome g IsGridSpec) }
    ensures asked { IfOk result
        (λ g. IfSome (get table.region_list.name (view top.now)) (λ _. IsTrue (is_some g))) }
    ensures fault { IfErr result (λ f. section_fault (view top.now) table.grid ≡ Some f) }
{
    let found = object_in(top, &GRID)?;
    match found {
        None => Ok(None),
        Some(object) => {
            let grid = grid_of(object, sort_of(top))?;
            Ok(Some(grid))
        }
    }
}

/// How the object of a grid says that points become heights.
fn gridding_of(object: &Value) -> Gridding
    requires bridge { IsCount (number_of table.bridge (view object.now)) }
    ensures { result ≡ gridding_of (view object.now) }
{
    Gridding {
        keep: keep_at(object),
        bridge: count_at(object, BRIDGE.name),
    }
}

/// What the object of a grid says that cells keep, and the highest where it doesn't say.
fn keep_at(object: &Value) -> Keep
    ensures { result ≡ unwrap_or (keep_named (text_of table.keep (view object.now))) Highest }
{
    let Some(value) = object.get(KEEP.name) else {
        return Keep::Highest;
    };
    match value.as_str() {
        None => Keep::Highest,
        Some(name) => keep_named(name).unwrap_or(Keep::Highest),
    }
}

/// How the points of a value become heights, once its grid has no fault.
#[tactic(auto, unfolding(crate::specs::Judge::gridding_in))]
pub fn gridding(top: &Value) -> Gridding
    requires { section_fault (view top.now) table.grid ≡ None }
    ensures value { result ≡ gridding_in (view top.now) }
    ensures kept { IsGridding result }
{
    match top.get(GRID.name) {
        Some(object) if is_since(3, sort_of(top)) => gridding_of(object),
        _ => Gridding {
            keep: Keep::Highest,
            bridge: 0,
        },
    }
}
