//! Source places. All numbers are exact: for entries of a matrix up to 2^40 and pixels below 4096
//! each sum is below 2^53, and 256 times that below 2^61; for a mesh, weights add up to at most
//! 2^20 and nodes are up to 2^24, so that each sum is at most 2^46. All of this fits 64 bits with a
//! sign.

ghost use Rattle.std.specs.Prelude.{◌≡◌, ◌+◌, ◌-◌, ◌-ℤ◌, ◌*◌, ◌/◌, ◌<◌, ◌≤◌, ℤ, pos, ◌+ℤ◌, ◌*ℤ◌};
ghost use Rattle.std.specs.Prelude.{◌≤ℤ◌, ◌<ℤ◌, All, IfSome, length, map, slice_index_or};
ghost use Rattle.std.specs.Int.{int_div_euclid};
ghost use Rattle.sgm_base.specs.declared.limits.TheConstants.{MAX_SIDE};
ghost use Rattle.sgm_rectify.specs.Places.{affine, entry, denominator, quotient, blended, in_cell};
ghost use Rattle.sgm_rectify.specs.Warps.{IsEntry, IsCoordinate, IsNode};

/// A matrix entry times a column or row.
fn times(a: i64, n: u32) -> i64
    requires a { IsEntry a }
    requires n { n < MAX_SIDE }
    ensures value { result ≡ a *ℤ pos n }
    ensures low { (pos 0 -ℤ pos (1099511627776 * 4095)) ≤ℤ result }
    ensures high { result ≤ℤ pos (1099511627776 * 4095) }
{
    a * n as i64
}

/// a x + b y + c
fn affine_of(a: i64, b: i64, c: i64, x: u32, y: u32) -> i64
    requires a { IsEntry a }
    requires b { IsEntry b }
    requires c { IsEntry c }
    requires x { x < MAX_SIDE }
    requires y { y < MAX_SIDE }
    ensures value { result ≡ ((a *ℤ pos x) +ℤ (b *ℤ pos y)) +ℤ c }
    ensures low { (pos 0 -ℤ pos (1099511627776 * 8191)) ≤ℤ result }
    ensures high { result ≤ℤ pos (1099511627776 * 8191) }
{
    times(a, x) + times(b, y) + c
}

/// a x + b y + c, where a, b and c stand in the matrix from the entry `first` on.
pub(crate) fn affine(matrix: &[i64; 9], first: usize, x: u32, y: u32) -> i64
    requires entries { All IsEntry matrix.now }
    requires first { first ≤ 6 }
    requires x { x < MAX_SIDE }
    requires y { y < MAX_SIDE }
    ensures value { result ≡ affine matrix.now first x y }
    ensures low { (pos 0 -ℤ pos (1099511627776 * 8191)) ≤ℤ result }
    ensures high { result ≤ℤ pos (1099511627776 * 8191) }
{
    let (a, b, c) = (matrix[first], matrix[first + 1], matrix[first + 2]);
    affine_of(a, b, c, x, y)
}

/// floor(a / b), for a positive `b`.
fn floor_div(a: i64, b: i64) -> i64
    requires { pos 0 <ℤ b }
    ensures { result ≡ int_div_euclid a b }
{
    a.div_euclid(b)
}

/// What is left of `a` less so many times `b`; None where that isn't known to fit 64 bits.
#[inline]
fn left_of(a: i64, b: i64, times: i64) -> Option<i64>
    ensures { IfSome result (λ left. left ≡ a -ℤ (times *ℤ b)) }
{
    a.checked_sub(times.checked_mul(b)?)
}

/// The quotient that is at most one from `near`, if floor(a / b) is.
#[inline]
fn beside(near: i64, left: i64, b: i64) -> i64 {
    near.wrapping_add(i64::from(b <= left) - i64::from(left < 0))
}

/// floor(a / b), for a positive `b`. Where it is at most one from `near`, two products show it and
/// nothing is divided.
#[inline]
fn floor_near(a: i64, b: i64, near: i64) -> i64
    requires { pos 0 <ℤ b }
    ensures { result ≡ int_div_euclid a b }
{
    let Some(left) = left_of(a, b, near) else {
        return floor_div(a, b);
    };
    let floor = beside(near, left, b);
    let Some(left) = left_of(a, b, floor) else {
        return floor_div(a, b);
    };
    if 0 <= left && left < b {
        floor
    } else {
        floor_div(a, b)
    }
}

/// floor(256 (a x + b y + c) / denominator), where a, b and c stand in the matrix from `first` on.
/// It is found soonest where it is at most one from `near`.
#[inline]
fn quotient(matrix: &[i64; 9], first: usize, x: u32, y: u32, near: i64) -> i64
    requires entries { All IsEntry matrix.now }
    requires first { first ≤ 6 }
    requires x { x < MAX_SIDE }
    requires y { y < MAX_SIDE }
    requires positive { pos 0 <ℤ denominator matrix.now x y }
    ensures { result ≡ quotient matrix.now first x y }
{
    let numerator = 256 * affine(matrix, first, x, y);
    floor_near(numerator, affine(matrix, 6, x, y), near)
}

/// The source place of the pixel (x, y) by a projective map. It is found soonest where it lies
/// `near`.
pub(crate) fn projected(matrix: &[i64; 9], x: u32, y: u32, near: (i64, i64)) -> (i64, i64)
    requires entries { All IsEntry matrix.now }
    requires x { x < MAX_SIDE }
    requires y { y < MAX_SIDE }
    requires positive { pos 0 <ℤ denominator matrix.now x y }
    ensures { result ≡ (quotient matrix.now 0 x y, quotient matrix.now 3 x y) }
{
    let u = quotient(matrix, 0, x, y, near.0);
    let v = quotient(matrix, 3, x, y, near.1);
    (u, v)
}

/// The weight p * q.
fn weight(p: u32, q: u32) -> i64
    requires p { p ≤ 1024 }
    requires q { q ≤ 1024 }
    ensures value { result ≡ pos (p * q) }
    ensures high { p * q ≤ 1048576 }
{
    (p * q) as i64
}

/// The weight p * q times a node's coordinate.
fn share(p: u32, q: u32, coordinate: i32) -> i64
    requires p { p ≤ 1024 }
    requires q { q ≤ 1024 }
    requires coordinate { IsCoordinate coordinate }
    ensures value { result ≡ pos (p * q) *ℤ coordinate }
    ensures low { (pos 0 -ℤ pos (1048576 * 16777216)) ≤ℤ result }
    ensures high { result ≤ℤ pos (1048576 * 16777216) }
{
    weight(p, q) * coordinate as i64
}

/// The coordinate that lies `a` and `b` steps of `step` from the left and the upper nodes of a
/// cell. The coordinates of its nodes are `upper` and `lower`, each from left to right. It is found
/// soonest where it is at most one from `near`.
fn blended(step: u32, a: u32, b: u32, upper: (i32, i32), lower: (i32, i32), near: i64) -> i64
    requires positive { 0 < step }
    requires step { step ≤ 1024 }
    requires a { a < step }
    requires b { b < step }
    requires upper { IsNode upper }
    requires lower { IsNode lower }
    ensures { result ≡ blended step a b upper.0 upper.1 lower.0 lower.1 }
{
    let first = share(step - a, step - b, upper.0) + share(a, step - b, upper.1);
    let sum = first + share(step - a, b, lower.0) + share(a, b, lower.1);
    floor_near(sum, weight(step, step), near)
}

/// The node in the column `column` and the row `row` of a mesh of `cols` columns.
fn node(nodes: &[(i32, i32)], cols: u32, column: u32, row: u32) -> (i32, i32)
    requires column { column < cols }
    requires row { row * cols + cols ≤ length nodes.now }
    requires cols { cols ≤ 2049 }
    requires rows { row < 2049 }
    requires nodes { All IsNode nodes.now }
    ensures u { result.0 ≡ slice_index_or (map (λ n. n.0) nodes.now) (row * cols + column) (pos 0) }
    ensures v { result.1 ≡ slice_index_or (map (λ n. n.1) nodes.now) (row * cols + column) (pos 0) }
    ensures kept { IsNode result }
{
    nodes[row as usize * cols as usize + column as usize]
}

/// The source place of the pixel (x, y) by a mesh that has the four nodes round it. It is found
/// soonest where it lies `near`.
pub(crate) fn meshed(
    step: u32,
    cols: u32,
    nodes: &[(i32, i32)],
    x: u32,
    y: u32,
    near: (i64, i64),
) -> (i64, i64)
    requires step { (1 ≤ step) × (step ≤ 1024) }
    requires column { x / step + 1 < cols }
    requires cols { cols ≤ 2049 }
    requires row { (y / step + 1) * cols + cols ≤ length nodes.now }
    requires rows { y / step + 1 < 2049 }
    requires nodes { All IsNode nodes.now }
    ensures u { result.0 ≡ in_cell step cols (map (λ n. n.0) nodes.now) x y }
    ensures v { result.1 ≡ in_cell step cols (map (λ n. n.1) nodes.now) x y }
{
    let (i, j) = (x / step, y / step);
    let (a, b) = (x % step, y % step);
    let (u00, v00) = node(nodes, cols, i, j);
    let (u10, v10) = node(nodes, cols, i + 1, j);
    let (u01, v01) = node(nodes, cols, i, j + 1);
    let (u11, v11) = node(nodes, cols, i + 1, j + 1);
    let u = blended(step, a, b, (u00, u10), (u01, u11), near.0);
    let v = blended(step, a, b, (v00, v10), (v01, v11), near.1);
    (u, v)
}
