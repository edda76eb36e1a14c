//! Reading a calibration file.

ghost use Rattle.std.specs.Prelude.{◌≡◌, IfOk, IfErr, OnOk, None, Result};
ghost use Rattle.serde_json.specs.View.{view};
ghost use Rattle.sgm_calib.specs.Calibration.{Calibration};
ghost use Rattle.sgm_calib.specs.Checks.{IsFaultOf};
ghost use Rattle.sgm_calib.specs.Judge.{entries_fault, calibration_in, judged};
ghost use Rattle.sgm_calib.specs.Read.{Reads, ReadsAs, ReadsText};
ghost use Rattle.sgm_calib.specs.declared.keys.CalibFault.{CalibFault};

use crate::calib::Calib;
use crate::checks::{check_top, columns, rule};
use crate::keys::{CalibError, CalibFault};
use crate::pose::pose;
use crate::regions::regions;
use crate::sections::{camera, census, disparities, fine, grid, gridding, penalties};
use crate::warps::warps;
use serde_json::Value;
use std::alloc::Global;

#[tactic(auto, unfolding(crate::specs::Judge::entries_fault))]
fn entries(alloc: Global, top: &Value) -> Result<Calib, CalibError>
    ensures ok { OnOk result (entries_fault (view top.now) ≡ None) }
    ensures value { IfOk result (λ calib. calib ≡ calibration_in (view top.now)) }
    ensures fault { IfErr result (λ e. IsFaultOf (entries_fault (view top.now)) e) }
{
    let span = disparities(top)?;
    let window = census(top)?;
    let pen = penalties(top)?;
    let (left, right) = warps(alloc, top)?;
    let camera = camera(top)?;
    let pose = pose(top)?;
    let grid = grid(top)?;
    let regions = regions(alloc, top, grid)?;
    Ok(Calib {
        span,
        fine: fine(top),
        window,
        rule: rule(top),
        pen,
        left,
        right,
        camera,
        pose,
        grid,
        gridding: gridding(top),
        columns: columns(top),
        regions,
    })
}

#[tactic(auto, unfolding(crate::specs::Judge::judged))]
fn judge(alloc: Global, top: &Value) -> Result<Calib, CalibError>
    ensures { ReadsAs (judged (view top.now)) result }
{
    check_top(top)?;
    entries(alloc, top)
}

/// Reads a calibration file. The fault is the first by the order of the key table: by the numbers
/// of the keys, depth first. It is Json where the bytes are no JSON text.
pub fn read(alloc: Global, bytes: &[u8]) -> Result<Calib, CalibError>
    ensures exact { ReadsText bytes.now result }
    ensures unique { (r : Result Calibration CalibFault) → Reads bytes.now r → ReadsAs r result }
{
    match Value::from_slice(alloc, bytes) {
        Err(error) if error.is_memory() => Err(CalibError::NoMemory),
        Err(_) => Err(CalibError::Fault(CalibFault::Json)),
        Ok(value) => judge(alloc, &value),
    }
}
