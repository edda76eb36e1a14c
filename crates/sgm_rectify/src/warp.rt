ghost use Rattle.std.specs.Prelude.{◌≡◌, ◌<◌, pos, int_le, All, None, Some, option_map};
ghost use Rattle.std.specs.Prelude.{MatchResult};
ghost use Rattle.sgm_base.specs.Sides.{IsSide};
ghost use Rattle.sgm_rectify.specs.declared.warp.WarpFault.TheVariants.{Denominator};
ghost use Rattle.sgm_rectify.specs.Faults.{nodes_needed, mesh_fault, bad_corner, warp_fault};
ghost use Rattle.sgm_rectify.specs.Faults.{SuitsPixel};
ghost use Rattle.sgm_base.specs.declared.limits.TheConstants.{MAX_SIDE};
ghost use Rattle.sgm_rectify.specs.Places.{denominator, place_of};
ghost use Rattle.sgm_rectify.specs.Warps.{IsEntry, IsWarp};

use crate::Nodes;
use crate::place::{affine, meshed, projected};
use sgm_base::Size;

/// Where the pixels of a rectified image come from.
#[derive(Drop)]
pub enum Warp {
    /// Each pixel from its own place.
    Identity,
    /// A projective map of the plane, by the rows of its matrix from the top: entries from
    /// `MIN_ENTRY` to `MAX_ENTRY`.
    Projective([i64; 9]),
    /// A mesh over the rectified image: a node at every `step` pixels, `cols` by `rows` of them,
    /// and between the nodes by bilinear interpolation.
    Mesh {
        step: u32,
        cols: u32,
        rows: u32,
        nodes: Nodes,
    },
}

/// Why an image of a size can't be rectified by a warp.
#[derive(Clone, Copy, PartialEq, Eq)]
pub enum WarpFault {
    /// The projective denominator is 0 or less at this corner, the first such: 0 is the upper left,
    /// 1 the upper right, 2 the lower left and 3 the lower right.
    Denominator {
        corner: u32,
    },
    /// The mesh has other counts of columns and rows than the image needs.
    MeshSize {
        cols: u32,
        rows: u32,
        need_cols: u32,
        need_rows: u32,
    },
}

/// How many nodes a mesh needs along a side.
fn nodes_needed(step: u32, side: u32) -> u32
    requires step { 0 < step }
    requires side { IsSide side }
    ensures { result ≡ nodes_needed step side }
{
    (side - 1) / step + 2
}

/// What is wrong with a mesh for an image of this size.
fn mesh_fault(step: u32, cols: u32, rows: u32, size: Size) -> Option<WarpFault>
    requires { 0 < step }
    ensures { result
        ≡ mesh_fault cols rows (nodes_needed step size.width) (nodes_needed step size.height) }
{
    let need_cols = nodes_needed(step, size.width);
    let need_rows = nodes_needed(step, size.height);
    if cols == need_cols && rows == need_rows {
        None
    } else {
        Some(WarpFault::MeshSize {
            cols,
            rows,
            need_cols,
            need_rows,
        })
    }
}

/// Whether the denominator is 0 or less at a pixel.
fn is_bad(matrix: &[i64; 9], x: u32, y: u32) -> bool
    requires entries { All IsEntry matrix.now }
    requires x { x < MAX_SIDE }
    requires y { y < MAX_SIDE }
    ensures { result ≡ int_le (denominator matrix.now x y) (pos 0) }
{
    affine(matrix, 6, x, y) <= 0
}

/// The first corner at which the denominator is 0 or less.
fn bad_corner(matrix: &[i64; 9], size: Size) -> Option<u32>
    requires { All IsEntry matrix.now }
    ensures { result ≡ bad_corner matrix.now size }
{
    let (right, bottom) = (size.width - 1, size.height - 1);
    if is_bad(matrix, 0, 0) {
        Some(0)
    } else if is_bad(matrix, right, 0) {
        Some(1)
    } else if is_bad(matrix, 0, bottom) {
        Some(2)
    } else if is_bad(matrix, right, bottom) {
        Some(3)
    } else {
        None
    }
}

/// What is wrong with a projective map for an image of this size.
fn projective_fault(matrix: &[i64; 9], size: Size) -> Option<WarpFault>
    requires { All IsEntry matrix.now }
    ensures { result ≡ option_map (λ corner. Denominator corner) (bad_corner matrix.now size) }
{
    let corner = bad_corner(matrix, size)?;
    Some(WarpFault::Denominator { corner })
}

impl Warp {
    /// What is wrong with the warp for an image of this size.
    #[tactic(auto, unfolding(crate::specs::Faults::warp_fault))]
    fn fault(&self, size: Size) -> Option<WarpFault>
        requires { IsWarp self.now }
        ensures { result ≡ warp_fault self.now size }
    {
        match self {
            Warp::Identity => None,
            Warp::Projective(matrix) => projective_fault(matrix, size),
            Warp::Mesh {
                step,
                cols,
                rows,
                ..
            } => mesh_fault(*step, *cols, *rows, size),
        }
    }

    /// Whether an image of this size can be rectified by the warp. Takes no memory.
    pub fn check(&self, size: Size) -> Result<(), WarpFault>
        requires { IsWarp self.now }
        ensures { MatchResult result (λ _. warp_fault self.now size ≡ None)
            (λ fault. warp_fault self.now size ≡ Some fault) }
    {
        match self.fault(size) {
            None => Ok(()),
            Some(fault) => Err(fault),
        }
    }

    /// The source place (u, v) of the pixel (x, y), in 1/256 of a pixel, for a warp that passes
    /// `check` for a size which has the pixel. Takes no memory.
    pub fn place(&self, x: u32, y: u32) -> (i64, i64)
        requires { SuitsPixel self.now x y }
        ensures { result ≡ place_of self.now x y }
    {
        self.place_near(x, y, (0, 0))
    }

    /// The same, found soonest where it lies at most 1/256 of a pixel from `near` in both axes.
    #[inline]
    pub(crate) fn place_near(&self, x: u32, y: u32, near: (i64, i64)) -> (i64, i64)
        requires { SuitsPixel self.now x y }
        ensures { result ≡ place_of self.now x y }
    {
        match self {
            Warp::Identity => (256 * x as i64, 256 * y as i64),
            Warp::Projective(matrix) => projected(matrix, x, y, near),
            Warp::Mesh {
                step,
                cols,
                nodes,
                ..
            } => meshed(*step, *cols, nodes.as_slice(), x, y, near),
        }
    }
}
