//! `regions CALIBRATION | X,Y,H X,Y,H ..`: the table of a calibration's regions, once these points
//! were added to its grid and its heights were bridged as it says; with `\n` for each end of a
//! line. A case without points ends behind the calibration. `tests/regions_cases.py` works the
//! answers out.

ghost use Rattle.std.specs.Prelude.{◌≡◌, All, IfOk, length, map};
ghost use Rattle.sgm_report.specs.Areas.{IsArea, IsRegionName};
ghost use Rattle.sgm_report.specs.Tallies.{tally_of};

use crate::cells::{MAX_POINTS, add_points};
use crate::parts::words_of;
use crate::rows::cut_rows;
use sgm_calib::{Calib, read};
use sgm_grid::{Bins, Grid, GridSpec, bridge};
use sgm_report::{Columns, Region, RegionTally, tally, write_report};
use std::alloc::{AllocError, Global};

/// The tally of each region.
fn tally_all(
    alloc: Global,
    grid: &Grid,
    measured: &Grid,
    regions: &[Region],
) -> Result<Vec<RegionTally>, AllocError>
    requires same { measured.now.spec ≡ grid.now.spec }
    requires regions { All (IsArea grid.now.spec) regions.now }
    ensures { IfOk result (λ tallies. tallies.items
        ≡ map (tally_of grid.now measured.now) regions.now) }
{
    let mut tallies = Vec::with_capacity(alloc, regions.len())?;
    for region in regions {
        let found = tally(alloc, grid, measured, region)?;
        tallies.push(found)?;
    }
    Ok(tallies)
}

/// The text in one line.
fn one_line(alloc: Global, table: &[u8]) -> Result<String, AllocError> {
    let mut text = String::new(alloc);
    for byte in table {
        match byte {
            b'\n' => text.push_str("\\n")?,
            _ => text.push(char::from(*byte))?,
        }
    }
    Ok(text)
}

/// The table of regions over a grid that is bridged over so many cells.
fn table_over(
    alloc: Global,
    measured: &Grid,
    calib: &Calib,
    regions: &[Region],
) -> Result<String, AllocError>
    requires { All (IsArea measured.now.spec) regions.now }
{
    let grid = bridge(alloc, measured, calib.gridding().bridge)?;
    let tallies = tally_all(alloc, &grid, measured, regions)?;
    let mut table = Vec::new(alloc);
    write_report(regions, &tallies, calib.columns(), &mut table)?;
    one_line(alloc, &table)
}

fn text_of(alloc: Global, calib: &Calib, words: &[String]) -> Result<String, AllocError> {
    let (Some(spec), Some(regions)) = (calib.grid(), calib.regions()) else {
        return String::from_str(alloc, "no regions");
    };
    let mut bins = Bins::make(alloc, spec, calib.gridding().keep)?;
    if words.len() <= MAX_POINTS && add_points(&mut bins, words) {
        let measured = bins.grid(alloc)?;
        table_over(alloc, &measured, calib, regions)
    } else {
        String::from_str(alloc, "no such points")
    }
}

/// The answer to the case of that text.
pub fn answer(alloc: Global, case: &str) -> Result<String, AllocError> {
    let (calibration, points) = cut_rows(case);
    match read(alloc, calibration.as_bytes()) {
        Ok(calib) => text_of(alloc, &calib, &words_of(alloc, points)?),
        Err(_) => String::from_str(alloc, "no such calibration"),
    }
}
