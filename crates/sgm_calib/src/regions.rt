//! The regions of the grid.

ghost use Rattle.std.specs.Prelude.{◌≡◌, ◌+◌, ◌≤◌, ◌++◌, [], ◌∷◌, map, length, All, IfOk, IfErr};
ghost use Rattle.std.specs.Prelude.{OnOk, IfSome, IsTrue, is_some, Some, None, option_map};
ghost use Rattle.serde_json.specs.View.{view};
ghost use Rattle.serde_json.specs.Find.{get};
ghost use Rattle.sgm_grid.specs.Cells.{IsGridSpec};
ghost use Rattle.sgm_report.specs.Areas.{IsArea, IsRegionName};
ghost use Rattle.sgm_report.specs.Bases.{IsBasePlane};
ghost use Rattle.sgm_report.specs.Outlines.{IsOutline};
ghost use Rattle.sgm_calib.specs.Table as table;
ghost use Rattle.sgm_calib.specs.Rows.{number_of, IsCount};
ghost use Rattle.sgm_calib.specs.Checks.{first_of, key_fault, keys_fault, text_of, elements};
ghost use Rattle.sgm_calib.specs.Checks.{sort_of, IsFaultOf};
ghost use Rattle.sgm_calib.specs.RegionKeys.{region_place, region_number_keys, rises_fault};
ghost use Rattle.sgm_calib.specs.RegionKeys.{AreRegionsOf, parts_fault, outline_fault};
ghost use Rattle.sgm_calib.specs.RegionKeys.{region_fault, region_faults, regions_fault_of};
ghost use Rattle.sgm_calib.specs.RegionKeys.{regions_fault, base_of, numbers_of, area_in};
ghost use Rattle.sgm_calib.specs.RegionKeys.{outline_in, regions_in};
ghost use Rattle.sgm_calib.specs.Judge.{grid_in};

use crate::checks::{
    check_numbers, check_object, count_at, is_since, key_at, number_at, sort_of, text,
};
use crate::keys::{CalibError, CalibFault};
use crate::lists::{Amount, elements, numbers, pairs};
use crate::place::{PLAIN, Place};
use crate::sort::Sort;
use crate::table::{OUTLINE, REGION, REGION_NAME, REGION_NUMBERS, REGIONS, RISE_KEYS, RISE_NORTH};
use serde_json::Value;
use sgm_base::MAX_REGIONS;
use sgm_grid::GridSpec;
use sgm_report::{BasePlane, Region, is_region_name};
use std::alloc::{AllocError, Global};

/// The cells and the base of a region.
#[derive(Clone, Copy)]
struct RegionNumbers {
    col: u32,
    row: u32,
    cols: u32,
    rows: u32,
    base: BasePlane,
}

/// The place of the region with that index.
fn region_place(grid: GridSpec, index: u32) -> Place
    ensures { result ≡ region_place grid index }
{
    Place {
        shift: 0,
        index,
        cols: grid.cols,
        rows: grid.rows,
    }
}

/// The name of a region.
fn region_name<'a>(object: &'a Value, place: Place) -> Result<&'a str, CalibFault>
    requires { place.shift ≡ 0 }
    ensures ok { OnOk result (key_fault place (view object.now) table.region_name ≡ None) }
    ensures value { IfOk result (λ name. text_of table.region_name (view object.now) ≡ name.now) }
    ensures kept { IfOk result (λ name. IsRegionName name.now) }
    ensures fault { IfErr result
        (λ f. key_fault place (view object.now) table.region_name ≡ Some f) }
{
    let row = &REGION_NAME;
    let name = text(object, row, place)?;
    if is_region_name(name) {
        Ok(name)
    } else {
        Err(CalibFault::Range(key_at(row, place)))
    }
}

/// The base of a region of that sort, where it has no fault: level where its sort knows no rises.
fn base_at(object: &Value, sort: Sort) -> BasePlane
    ensures { result ≡ base_of sort (view object.now) }
{
    let [.., base] = &REGION_NUMBERS;
    let [rise_east, rise_north] = &RISE_KEYS;
    let slopes = is_since(3, sort);
    BasePlane {
        height: number_at(object, base.name),
        rise_east: if slopes {
            number_at(object, rise_east.name)
        } else {
            0
        },
        rise_north: if slopes {
            number_at(object, rise_north.name)
        } else {
            0
        },
    }
}

/// The cells and the base of a region of that sort, where they have no fault.
fn cells_at(object: &Value, sort: Sort) -> RegionNumbers
    requires col { IsCount (number_of table.region_col (view object.now)) }
    requires row { IsCount (number_of table.region_row (view object.now)) }
    requires cols { IsCount (number_of table.region_cols (view object.now)) }
    requires rows { IsCount (number_of table.region_rows (view object.now)) }
    ensures { result ≡ numbers_of sort (view object.now) }
{
    let [col, row, cols, rows, _] = &REGION_NUMBERS;
    RegionNumbers {
        col: count_at(object, col.name),
        row: count_at(object, row.name),
        cols: count_at(object, cols.name),
        rows: count_at(object, rows.name),
        base: base_at(object, sort),
    }
}

/// Checks the rises of a region's base, where its sort knows them.
fn check_rises(object: &Value, place: Place, sort: Sort) -> Result<(), CalibFault>
    requires { place.shift ≡ 0 }
    ensures ok { OnOk result (rises_fault sort place (view object.now) ≡ None) }
    ensures fault { IfErr result (λ f. rises_fault sort place (view object.now) ≡ Some f) }
{
    if is_since(3, sort) {
        check_numbers(object, &RISE_KEYS, place)?;
    }
    Ok(())
}

/// The cells and the base of a region, once its names are known.
fn region_numbers(object: &Value, place: Place, sort: Sort) -> Result<RegionNumbers, CalibFault>
    requires { place.shift ≡ 0 }
    ensures ok { OnOk result (first_of (keys_fault place (view object.now) region_number_keys
        ∷ rises_fault sort place (view object.now) ∷ []) ≡ None) }
    ensures value { IfOk result (λ numbers. numbers ≡ numbers_of sort (view object.now)) }
    ensures inside { IfOk result (λ numbers. (1 ≤ numbers.cols) × (1 ≤ numbers.rows)
        × (numbers.col + numbers.cols ≤ place.cols) × (numbers.row + numbers.rows ≤ place.rows)) }
    ensures based { IfOk result (λ numbers. IsBasePlane numbers.base) }
    ensures fault { IfErr result (λ f. first_of
        (keys_fault place (view object.now) region_number_keys
        ∷ rises_fault sort place (view object.now) ∷ []) ≡ Some f) }
{
    check_numbers(object, &REGION_NUMBERS, place)?;
    check_rises(object, place, sort)?;
    Ok(cells_at(object, sort))
}

/// The name, the cells and the base of a region, or the first fault of these.
#[tactic(auto, unfolding(crate::specs::RegionKeys::parts_fault))]
fn region_parts<'a>(
    object: &'a Value,
    place: Place,
    sort: Sort,
) -> Result<(&'a str, RegionNumbers), CalibFault>
    requires { place.shift ≡ 0 }
    ensures ok { OnOk result (parts_fault sort place (view object.now) ≡ None) }
    ensures name { IfOk result
        (λ parts. text_of table.region_name (view object.now) ≡ parts.0.now) }
    ensures numbers { IfOk result (λ parts. parts.1 ≡ numbers_of sort (view object.now)) }
    ensures named { IfOk result (λ parts. IsRegionName parts.0.now) }
    ensures inside { IfOk result (λ parts. (1 ≤ parts.1.cols) × (1 ≤ parts.1.rows)
        × (parts.1.col + parts.1.cols ≤ place.cols) × (parts.1.row + parts.1.rows ≤ place.rows)) }
    ensures based { IfOk result (λ parts. IsBasePlane parts.1.base) }
    ensures fault { IfErr result (λ f. parts_fault sort place (view object.now) ≡ Some f) }
{
    check_object(object, &REGION, place, sort)?;
    let name = region_name(object, place)?;
    let numbers = region_numbers(object, place, sort)?;
    Ok((name, numbers))
}

/// The corners of a region's outline, where it has one. In a version that knows none it has none,
/// as the name is unknown there.
#[tactic(auto, unfolding(crate::specs::RegionKeys::outline_fault, crate::specs::RegionKeys::outline_in))]
fn outline(
    alloc: Global,
    object: &Value,
    place: Place,
) -> Result<Option<Vec<(i32, i32)>>, CalibError>
    requires { place.shift ≡ 0 }
    ensures ok { OnOk result (outline_fault place (view object.now) ≡ None) }
    ensures value { IfOk result (λ o. option_map (λ v. v.items) o ≡ outline_in (view object.now)) }
    ensures kept { IfOk result (λ o. IfSome o (λ v. IsOutline v.items)) }
    ensures fault { IfErr result (λ e. IsFaultOf (outline_fault place (view object.now)) e) }
{
    let row = &OUTLINE;
    let Some(_) = object.get(row.name) else {
        return Ok(None);
    };
    let items = numbers(object, row, place, Amount::Corners)?;
    let corners = pairs(alloc, items)?;
    Ok(Some(corners))
}

/// The region that an object of that sort is.
#[tactic(auto, unfolding(crate::specs::RegionKeys::region_fault, crate::specs::RegionKeys::area_in))]
fn region(
    alloc: Global,
    object: &Value,
    index: u32,
    grid: GridSpec,
    sort: Sort,
) -> Result<Region, CalibError>
    requires { IsGridSpec grid }
    ensures ok { OnOk result
        (region_fault sort grid (region_place grid index) (view object.now) ≡ None) }
    ensures value { IfOk result (λ r. r ≡ area_in sort (view object.now)) }
    ensures inside { IfOk result (IsArea grid) }
    ensures fault { IfErr result (λ e.
        IsFaultOf (region_fault sort grid (region_place grid index) (view object.now)) e) }
{
    let place = region_place(grid, index);
    let (name, numbers) = region_parts(object, place, sort)?;
    let mut region = Region {
        name: String::from_str(alloc, name)?,
        col: numbers.col,
        row: numbers.row,
        cols: numbers.cols,
        rows: numbers.rows,
        base: numbers.base,
        outline: None,
    };
    if !region.has_base(grid) {
        return Err(CalibError::Fault(CalibFault::Range(key_at(&RISE_NORTH, place))));
    }
    region.outline = outline(alloc, object, place)?;
    Ok(region)
}

fn add(regions: &mut Vec<Region>, region: Region) -> Result<(), AllocError>
    ensures { OnOk result (regions.new.items ≡ regions.old.items ++ region ∷ []) }
{
    regions.push(region)?;
    Ok(())
}

/// The regions that the elements of a list are.
fn regions_of(
    alloc: Global,
    items: &[Value],
    grid: GridSpec,
    sort: Sort,
) -> Result<Vec<Region>, CalibError>
    requires grid { IsGridSpec grid }
    requires few { length items.now ≤ MAX_REGIONS }
    ensures ok { OnOk result (first_of (region_faults sort grid 0 (map view items.now)) ≡ None) }
    ensures value { IfOk result (λ v. v.items ≡ map (area_in sort) (map view items.now)) }
    ensures inside { IfOk result (λ v. All (IsArea grid) v.items) }
    ensures fault { IfErr result (λ e.
        IsFaultOf (first_of (region_faults sort grid 0 (map view items.now))) e) }
{
    let mut regions = Vec::with_capacity(alloc, items.len())?;
    for (index, item) in items.iter().enumerate() {
        let region = region(alloc, item, index as u32, grid, sort)?;
        add(&mut regions, region)?;
    }
    Ok(regions)
}

/// The regions that a value is: a list of not too many of them.
fn region_list(
    alloc: Global,
    list: &Value,
    grid: GridSpec,
    sort: Sort,
) -> Result<Vec<Region>, CalibError>
    requires { IsGridSpec grid }
    ensures ok { OnOk result (regions_fault_of sort grid (Some (view list.now)) ≡ None) }
    ensures value { IfOk result (λ v. v.items ≡ map (area_in sort) (elements (view list.now))) }
    ensures kept { IfOk result (λ v. AreRegionsOf grid v.items) }
    ensures fault { IfErr result (λ e.
        IsFaultOf (regions_fault_of sort grid (Some (view list.now))) e) }
{
    let row = &REGIONS;
    let Some(items) = elements(list) else {
        return Err(CalibError::Fault(CalibFault::Type_(key_at(row, PLAIN))));
    };
    if items.len() > MAX_REGIONS {
        return Err(CalibError::Fault(CalibFault::Range(key_at(row, PLAIN))));
    }
    regions_of(alloc, items, grid, sort)
}

/// The regions, where there are any: each in the grid of the value.
#[tactic(auto, unfolding(crate::specs::RegionKeys::regions_fault, crate::specs::RegionKeys::regions_in))]
pub fn regions(
    alloc: Global,
    top: &Value,
    grid: Option<GridSpec>,
) -> Result<Option<Vec<Region>>, CalibError>
    requires value { grid ≡ grid_in (view top.now) }
    requires kept { IfSome grid IsGridSpec }
    requires given { IfSome (get table.region_list.name (view top.now))
        (λ _. IsTrue (is_some grid)) }
    ensures ok { OnOk result (regions_fault (view top.now) ≡ None) }
    ensures value { IfOk result (λ r. option_map (λ v. v.items) r ≡ regions_in (view top.now)) }
    ensures kept { IfOk result
        (λ r. IfSome grid (λ spec. IfSome r (λ v. AreRegionsOf spec v.items))) }
    ensures given { IfOk result (λ r. IfSome r (λ _. IsTrue (is_some grid))) }
    ensures fault { IfErr result (λ e. IsFaultOf (regions_fault (view top.now)) e) }
{
    let Some(list) = top.get(REGIONS.name) else {
        return Ok(None);
    };
    let Some(grid) = grid else { unreachable!() };
    let regions = region_list(alloc, list, grid, sort_of(top))?;
    Ok(Some(regions))
}
