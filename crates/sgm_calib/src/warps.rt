//! The warps of the two images.

ghost use Rattle.std.specs.Prelude.{◌≡◌, [], ◌∷◌, ◌+◌, ◌*◌, ◌/◌, ◌<◌, ◌≤◌, pos, map, length, All};
ghost use Rattle.std.specs.Prelude.{IfOk, IfErr, OnOk, unwrap_or, Some, None};
ghost use Rattle.serde_json.specs.View.{view};
ghost use Rattle.sgm_base.specs.Ranges.{IsFromTo};
ghost use Rattle.sgm_rectify.specs.Warps.{IsWarp, IsEntry, IsNode, IsCoordinate};
ghost use Rattle.sgm_rectify.specs.declared.limits.TheConstants.{MIN_STEP, MAX_STEP};
ghost use Rattle.sgm_rectify.specs.declared.limits.TheConstants.{MIN_NODE_COUNT, MAX_NODE_COUNT};
ghost use Rattle.sgm_calib.specs.declared.kind.Kind.TheVariants.{Mesh};
ghost use Rattle.sgm_calib.specs.declared.lists.Amount.TheVariants.{Exactly};
ghost use Rattle.sgm_calib.specs.Table as table;
ghost use Rattle.sgm_calib.specs.Rows.{whole, number_of, count_of, meant, form_meant};
ghost use Rattle.sgm_calib.specs.Rows.{presence_meant};
ghost use Rattle.sgm_calib.specs.Checks.{first_of, object_fault, key_fault, keys_fault};
ghost use Rattle.sgm_calib.specs.Checks.{numbers_fault, value_of, IsFaultOf};
ghost use Rattle.sgm_calib.specs.WarpKeys.{kind_of, rows_of_kind, shape_keys, mesh_fault};
ghost use Rattle.sgm_calib.specs.WarpKeys.{matrix_in, pairs, side_fault, side_warp, warp_of_kind};
ghost use Rattle.sgm_calib.specs.WarpKeys.{warps_fault, warp_in};

use crate::checks::{check_numbers, check_object, count_at, key_at, text};
use crate::keys::{CalibError, CalibFault};
use crate::kind::{Kind, kind_named};
use crate::lists::{Amount, nine, numbers, pairs};
use crate::place::{PLAIN, Place, RIGHT_SIDE};
use crate::sort::Sort;
use crate::table::{KIND, LEFT, MATRIX, NODES, Row, SHAPE_KEYS, SIDES, WARP};
use serde_json::Value;
use sgm_rectify::{Nodes, Warp};
use std::alloc::{AllocError, Global};

/// The numbers of a mesh beside its nodes.
#[derive(Clone, Copy)]
struct Shape {
    step: u32,
    cols: u32,
    rows: u32,
    ghost step_range: { (MIN_STEP ≤ step) × (step ≤ MAX_STEP) },
    ghost cols_range: { (MIN_NODE_COUNT ≤ cols) × (cols ≤ MAX_NODE_COUNT) },
    ghost rows_range: { (MIN_NODE_COUNT ≤ rows) × (rows ≤ MAX_NODE_COUNT) },
}

/// The kind of a side.
#[tactic(auto, unfolding(crate::specs::WarpKeys::kind_of))]
fn side_kind(side: &Value, place: Place) -> Result<Kind, CalibFault>
    requires { place.shift ≤ 7 }
    ensures ok { OnOk result (key_fault place (view side.now) table.side_kind ≡ None) }
    ensures value { IfOk result (λ k. k ≡ kind_of (view side.now)) }
    ensures fault { IfErr result (λ f. key_fault place (view side.now) table.side_kind ≡ Some f) }
{
    let row = &KIND;
    let name = text(side, row, place)?;
    match kind_named(name) {
        None => Err(CalibFault::Range(key_at(row, place))),
        Some(kind) => Ok(kind),
    }
}

/// The matrix of a projective side, row by row.
#[tactic(auto, unfolding(crate::specs::WarpKeys::matrix_in))]
fn matrix(side: &Value, place: Place) -> Result<[i64; 9], CalibFault>
    requires { place.shift ≤ 7 }
    ensures ok { OnOk result
        (numbers_fault place (view side.now) table.side_matrix (Exactly 9) ≡ None) }
    ensures value { IfOk result (λ entries. entries ≡ matrix_in (view side.now)) }
    ensures range { IfOk result (λ entries. All IsEntry entries) }
    ensures fault { IfErr result
        (λ f. numbers_fault place (view side.now) table.side_matrix (Exactly 9) ≡ Some f) }
{
    nine(side, &MATRIX, place)
}

/// The step, the columns and the rows of a side that is a mesh, where they have no fault.
fn shape_at(side: &Value) -> Shape
    requires step { IsFromTo (pos MIN_STEP) (pos MAX_STEP)
        (number_of table.mesh_step (view side.now)) }
    requires cols { IsFromTo (pos MIN_NODE_COUNT) (pos MAX_NODE_COUNT)
        (number_of table.mesh_cols (view side.now)) }
    requires rows { IsFromTo (pos MIN_NODE_COUNT) (pos MAX_NODE_COUNT)
        (number_of table.mesh_rows (view side.now)) }
    ensures step { result.step ≡ count_of table.mesh_step (view side.now) }
    ensures cols { result.cols ≡ count_of table.mesh_cols (view side.now) }
    ensures rows { result.rows ≡ count_of table.mesh_rows (view side.now) }
{
    let [step, cols, rows] = &SHAPE_KEYS;
    Shape {
        step: count_at(side, step.name),
        cols: count_at(side, cols.name),
        rows: count_at(side, rows.name),
    }
}

/// The step, the columns and the rows of a side that is a mesh.
fn mesh_shape(side: &Value, place: Place) -> Result<Shape, CalibFault>
    requires { place.shift ≤ 7 }
    ensures ok { OnOk result (keys_fault place (view side.now) shape_keys ≡ None) }
    ensures step { IfOk result (λ s. s.step ≡ count_of table.mesh_step (view side.now)) }
    ensures cols { IfOk result (λ s. s.cols ≡ count_of table.mesh_cols (view side.now)) }
    ensures rows { IfOk result (λ s. s.rows ≡ count_of table.mesh_rows (view side.now)) }
    ensures fault { IfErr result (λ f. keys_fault place (view side.now) shape_keys ≡ Some f) }
{
    check_numbers(side, &SHAPE_KEYS, place)?;
    Ok(shape_at(side))
}

/// The nodes that numbers are by twos.
fn nodes(alloc: Global, items: &[Value]) -> Result<Vec<(i32, i32)>, AllocError>
    requires range { All (λ item. IsCoordinate (unwrap_or (whole (view item)) (pos 0))) items.now }
    ensures value { IfOk result (λ places. places.items
        ≡ pairs (map (λ item. unwrap_or (whole (view item)) (pos 0)) items.now)) }
    ensures count { IfOk result (λ places. length places.items ≡ length items.now / 2) }
    ensures range { IfOk result (λ places. All IsNode places.items) }
{
    pairs(alloc, items)
}

/// The mesh that a side is, by its shape and its nodes.
#[tactic(auto, unfolding(crate::specs::WarpKeys::mesh_fault, crate::specs::WarpKeys::nodes_in))]
fn mesh_by_nodes(alloc: Global, side: &Value, place: Place) -> Result<Warp, CalibError>
    requires { place.shift ≤ 7 }
    ensures ok { OnOk result (mesh_fault place (view side.now) ≡ None) }
    ensures value { IfOk result (λ w. w ≡ warp_of_kind Mesh (view side.now)) }
    ensures kept { IfOk result (λ w. IsWarp w) }
    ensures fault { IfErr result (λ e. IsFaultOf (mesh_fault place (view side.now)) e) }
{
    let shape = mesh_shape(side, place)?;
    let count = 2 * shape.cols as usize * shape.rows as usize;
    let items = numbers(side, &NODES, place, Amount::Exactly(count))?;
    let places = nodes(alloc, items)?;
    Ok(Warp::Mesh {
        step: shape.step,
        cols: shape.cols,
        rows: shape.rows,
        nodes: Nodes::make(places),
    })
}

/// The mesh that a side is.
fn mesh(alloc: Global, side: &Value, place: Place) -> Result<Warp, CalibError>
    requires { place.shift ≤ 7 }
    ensures ok { OnOk result (keys_fault place (view side.now) (rows_of_kind Mesh) ≡ None) }
    ensures value { IfOk result (λ w. w ≡ warp_of_kind Mesh (view side.now)) }
    ensures kept { IfOk result (λ w. IsWarp w) }
    ensures fault { IfErr result
        (λ e. IsFaultOf (keys_fault place (view side.now) (rows_of_kind Mesh)) e) }
{
    mesh_by_nodes(alloc, side, place)
}

/// The warp that a side is, once its kind and its names are known.
fn warp_of_kind(alloc: Global, side: &Value, place: Place, kind: Kind) -> Result<Warp, CalibError>
    requires { place.shift ≤ 7 }
    ensures ok { OnOk result (keys_fault place (view side.now) (rows_of_kind kind) ≡ None) }
    ensures value { IfOk result (λ w. w ≡ warp_of_kind kind (view side.now)) }
    ensures kept { IfOk result (λ w. IsWarp w) }
    ensures fault { IfErr result
        (λ e. IsFaultOf (keys_fault place (view side.now) (rows_of_kind kind)) e) }
{
    match kind {
        Kind::Identity => Ok(Warp::Identity),
        Kind::Projective => Ok(Warp::Projective(matrix(side, place)?)),
        Kind::Mesh => mesh(alloc, side, place),
    }
}

/// The warp of the side under a name of the object `warp`.
#[tactic(auto, unfolding(crate::specs::WarpKeys::side_fault, crate::specs::WarpKeys::side_warp))]
fn side(alloc: Global, warp: &Value, row: &Row, place: Place) -> Result<Warp, CalibError>
    requires { place.shift ≤ 7 }
    ensures ok { OnOk result (side_fault place row.now.name.now (view warp.now) ≡ None) }
    ensures value { IfOk result (λ w. w ≡ side_warp (value_of (meant row.now) (view warp.now))) }
    ensures kept { IfOk result (λ w. IsWarp w) }
    ensures fault { IfErr result
        (λ e. IsFaultOf (side_fault place row.now.name.now (view warp.now)) e) }
{
    let left = &LEFT;
    let Some(side) = warp.get(row.name) else {
        return Err(CalibError::Fault(CalibFault::Missing(key_at(left, place))));
    };
    let Some(_) = side.as_object() else {
        return Err(CalibError::Fault(CalibFault::Type_(key_at(left, place))));
    };
    let kind = side_kind(side, place)?;
    check_object(side, left, place, Sort::Side(kind))?;
    warp_of_kind(alloc, side, place, kind)
}

/// The warps of the two sides of the object `warp`.
fn sides(alloc: Global, warp: &Value) -> Result<(Warp, Warp), CalibError>
    ensures ok { OnOk result (first_of (side_fault PLAIN table.left.name (view warp.now)
        ∷ side_fault RIGHT_SIDE table.right.name (view warp.now) ∷ []) ≡ None) }
    ensures left { IfOk result (λ w. w.0 ≡ side_warp (value_of table.left (view warp.now))) }
    ensures right { IfOk result (λ w. w.1 ≡ side_warp (value_of table.right (view warp.now))) }
    ensures left_kept { IfOk result (λ w. IsWarp w.0) }
    ensures right_kept { IfOk result (λ w. IsWarp w.1) }
    ensures fault { IfErr result
        (λ e. IsFaultOf (first_of (side_fault PLAIN table.left.name (view warp.now)
        ∷ side_fault RIGHT_SIDE table.right.name (view warp.now) ∷ [])) e) }
{
    let [left, right] = &SIDES;
    let left = side(alloc, warp, left, PLAIN)?;
    let right = side(alloc, warp, right, RIGHT_SIDE)?;
    Ok((left, right))
}

/// The warps of the left and the right image: the identity for both where the value has none.
/// Memory is taken for the nodes of a mesh alone.
#[tactic(auto, unfolding(crate::specs::WarpKeys::warps_fault, crate::specs::WarpKeys::warp_in))]
pub fn warps(alloc: Global, top: &Value) -> Result<(Warp, Warp), CalibError>
    ensures ok { OnOk result (warps_fault (view top.now) ≡ None) }
    ensures left { IfOk result (λ w. w.0 ≡ warp_in table.left (view top.now)) }
    ensures right { IfOk result (λ w. w.1 ≡ warp_in table.right (view top.now)) }
    ensures left_kept { IfOk result (λ w. IsWarp w.0) }
    ensures right_kept { IfOk result (λ w. IsWarp w.1) }
    ensures fault { IfErr result (λ e. IsFaultOf (warps_fault (view top.now)) e) }
{
    let row = &WARP;
    let Some(warp) = top.get(row.name) else {
        return Ok((Warp::Identity, Warp::Identity));
    };
    check_object(warp, row, PLAIN, Sort::Plain)?;
    sides(alloc, warp)
}
