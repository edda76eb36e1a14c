//! How the camera stands in the frame of the site.

ghost use Rattle.std.specs.Prelude.{◌≡◌, IfOk, IfErr, IfSome, OnOk, IsTrue, Some, None};
ghost use Rattle.serde_json.specs.View.{view};
ghost use Rattle.sgm_height.specs.Pose.{IsAxis, IsPose, axes_of, is_nearly_rotation};
ghost use Rattle.sgm_calib.specs.declared.lists.Amount.TheVariants.{Exactly};
ghost use Rattle.sgm_calib.specs.Table as table;
ghost use Rattle.sgm_calib.specs.Checks.{numbers_fault, rotation_fault, keys_fault, numbers_at};
ghost use Rattle.sgm_calib.specs.Judge.{section_fault, pose_of, pose_in};

use crate::checks::{check_numbers, key_at, number_at, object_in};
use crate::keys::CalibFault;
use crate::lists::nine;
use crate::place::PLAIN;
use crate::table::{POSE, POSE_MATRIX, SHIFT_KEYS};
use serde_json::Value;
use sgm_height::{Axes, Pose};

/// The axes of a pose, by the nine numbers of its matrix.
fn axes_at(object: &Value) -> Result<Axes, CalibFault>
    ensures ok { OnOk result
        (numbers_fault PLAIN (view object.now) table.pose_matrix (Exactly 9) ≡ None) }
    ensures value { IfOk result
        (λ axes. axes ≡ axes_of (numbers_at table.pose_matrix (view object.now))) }
    ensures east { IfOk result (λ axes. IsAxis axes.east) }
    ensures north { IfOk result (λ axes. IsAxis axes.north) }
    ensures up { IfOk result (λ axes. IsAxis axes.up) }
    ensures fault { IfErr result
        (λ f. numbers_fault PLAIN (view object.now) table.pose_matrix (Exactly 9) ≡ Some f) }
{
    let matrix = nine(object, &POSE_MATRIX, PLAIN)?;
    Ok(Axes::from_rows(&matrix))
}

/// The axes of a pose, which are nearly those of a rotation.
#[tactic(auto, unfolding(crate::specs::Checks::rotation_fault))]
fn axes(object: &Value) -> Result<Axes, CalibFault>
    ensures ok { OnOk result
        (rotation_fault PLAIN (view object.now) table.pose_matrix ≡ None) }
    ensures value { IfOk result
        (λ axes. axes ≡ axes_of (numbers_at table.pose_matrix (view object.now))) }
    ensures east { IfOk result (λ axes. IsAxis axes.east) }
    ensures north { IfOk result (λ axes. IsAxis axes.north) }
    ensures up { IfOk result (λ axes. IsAxis axes.up) }
    ensures nearly { IfOk result (λ axes. IsTrue (is_nearly_rotation axes)) }
    ensures fault { IfErr result
        (λ f. rotation_fault PLAIN (view object.now) table.pose_matrix ≡ Some f) }
{
    let axes = axes_at(object)?;
    if axes.is_nearly_rotation() {
        Ok(axes)
    } else {
        Err(CalibFault::Range(key_at(&POSE_MATRIX, PLAIN)))
    }
}

/// The pose with those axes that an object is, where its numbers have no fault.
#[tactic(auto, unfolding(crate::specs::Judge::pose_of))]
fn pose_with(object: &Value, axes: Axes) -> Pose
    requires { axes ≡ axes_of (numbers_at table.pose_matrix (view object.now)) }
    ensures { result ≡ pose_of (view object.now) }
{
    let [east, north, up] = &SHIFT_KEYS;
    Pose {
        axes,
        east: number_at(object, east.name),
        north: number_at(object, north.name),
        up: number_at(object, up.name),
    }
}

/// The pose that an object is, once its names are known.
fn pose_of(object: &Value) -> Result<Pose, CalibFault>
    ensures ok { OnOk result (keys_fault PLAIN (view object.now) table.pose_keys ≡ None) }
    ensures value { IfOk result (λ pose. pose ≡ pose_of (view object.now)) }
    ensures kept { IfOk result IsPose }
    ensures fault { IfErr result
        (λ f. keys_fault PLAIN (view object.now) table.pose_keys ≡ Some f) }
{
    let axes = axes(object)?;
    check_numbers(object, &SHIFT_KEYS, PLAIN)?;
    Ok(pose_with(object, axes))
}

/// How the camera stands in the frame of the site, where that is said.
#[tactic(auto, unfolding(crate::specs::Judge::section_fault, crate::specs::Judge::pose_in))]
pub fn pose(top: &Value) -> Result<Option<Pose>, CalibFault>
    ensures ok { OnOk result (section_fault (view top.now) table.pose ≡ None) }
    ensures value { IfOk result (λ pose. pose ≡ pose_in (view top.now)) }
    ensures kept { IfOk result (λ pose. IfSome pose IsPose) }
    ensures fault { IfErr result (λ f. section_fault (view top.now) table.pose ≡ Some f) }
{
    let found = object_in(top, &POSE)?;
    match found {
        None => Ok(None),
        Some(object) => {
            let pose = pose_of(object)?;
            Ok(Some(pose))
        }
    }
}
