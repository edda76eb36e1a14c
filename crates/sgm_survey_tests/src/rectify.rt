//! Places, faults and values of warps. Stored cases of `sgm_cases` have whole runs with warps of
//! all kinds.

ghost use Rattle.std.specs.Prelude.{◌↔◌, ◌≤◌, IsTrue, All};
ghost use Rattle.sgm_rectify.specs.Faults.{Suits};
ghost use Rattle.sgm_rectify.specs.Warps.{IsCoordinate, IsNode, IsMesh, IsWarp};

use sgm_base::{Image, Size};
use sgm_rectify::{
    MAX_ENTRY, MAX_NODE, MAX_NODE_COUNT, MAX_STEP, MIN_ENTRY, MIN_NODE, MIN_NODE_COUNT, MIN_STEP,
    Nodes, Warp, WarpFault, rectify,
};
use std::alloc::{AllocError, Global};
use std::process::Abort;
use std::test::Fail;

fn is_coordinate(u: i32) -> bool
    ensures { IsTrue result ↔ IsCoordinate u }
{
    MIN_NODE <= u && u <= MAX_NODE
}

fn has_coordinates(nodes: &[(i32, i32)]) -> bool
    ensures { IsTrue result → All IsNode nodes.now }
{
    nodes
        .iter()
        .all(|n| is_coordinate(n.0) && is_coordinate(n.1))
}

fn is_count(n: u32) -> bool
    ensures { IsTrue result → (2 ≤ n) × (n ≤ 2049) }
{
    MIN_NODE_COUNT <= n && n <= MAX_NODE_COUNT
}

fn is_mesh(step: u32, cols: u32, rows: u32, nodes: &[(i32, i32)]) -> bool
    ensures { IsTrue result → IsMesh step cols rows nodes.now }
{
    MIN_STEP <= step
        && step <= MAX_STEP
        && is_count(cols)
        && is_count(rows)
        && nodes.len() == cols as usize * rows as usize
        && has_coordinates(nodes)
}

/// Whether the warp's numbers are in range.
fn is_in_range(warp: &Warp) -> bool
    ensures { IsTrue result → IsWarp warp.now }
{
    match warp {
        Warp::Identity => true,
        Warp::Projective(matrix) => matrix.iter().all(|a| MIN_ENTRY <= *a && *a <= MAX_ENTRY),
        Warp::Mesh {
            step,
            cols,
            rows,
            nodes,
        } => is_mesh(*step, *cols, *rows, nodes.as_slice()),
    }
}

fn suits(warp: &Warp, size: Size) -> bool
    ensures { IsTrue result → Suits warp.now size }
{
    is_in_range(warp) && warp.check(size) == Ok(())
}

fn size_of(width: u32, height: u32) -> Result<Size, Fail> {
    Ok(Size::make(width, height).ok_or("size")?)
}

fn image_of(alloc: Global, size: Size, samples: &[u16]) -> Result<Image, Fail> {
    Ok(Image::make(size, 65535, samples.to_vec(alloc)?).ok_or("image")?)
}

fn mesh_of(
    alloc: Global,
    step: u32,
    cols: u32,
    rows: u32,
    places: &[(i32, i32)],
) -> Result<Warp, AllocError> {
    Ok(Warp::Mesh {
        step,
        cols,
        rows,
        nodes: Nodes::make(places.to_vec(alloc)?),
    })
}

fn place_in(rt: &impl Abort, warp: &Warp, size: Size, pixel: (u32, u32)) -> (i64, i64) {
    assert!(rt; suits(warp, size));
    let (x, y) = pixel;
    assert!(rt; x < size.width && y < size.height);
    warp.place(x, y)
}

/// The map that moves each pixel by u and v, in 1/256 of a pixel.
fn shift(u: i64, v: i64) -> Warp {
    Warp::Projective([256, 0, u, 0, 256, v, 0, 0, 256])
}

/// The value of the pixel by a warp.
fn value_at(
    rt: &impl Abort,
    alloc: Global,
    image: &Image,
    warp: &Warp,
    pixel: (u32, u32),
) -> Result<Option<u16>, Fail> {
    assert!(rt; suits(warp, image.size()));
    let plane = rectify(alloc, image, warp)?;
    let width = plane.size().width as usize;
    let at = pixel.1 as usize * width + pixel.0 as usize;
    Ok(*plane.entries().get(at).ok_or("pixel")?)
}

/// A pixel, how far it is moved, in 1/256 of a pixel to the right and downwards, and its value.
type Row = ((u32, u32), i64, i64, Option<u16>);

/// That the pixels of the image have these values.
fn assert_values(rt: &impl Abort, alloc: Global, image: &Image, table: &[Row]) -> Result<(), Fail> {
    for (pixel, u, v, want) in table {
        assert!(rt; value_at(rt, alloc, image, &shift(*u, *v), *pixel)? == *want);
    }
    Ok(())
}

/// Whether the image is rectified by a warp to one of its own size with these values.
fn is_rectified(
    rt: &impl Abort,
    alloc: Global,
    image: &Image,
    warp: &Warp,
    values: &[Option<u16>],
) -> Result<bool, AllocError> {
    assert!(rt; suits(warp, image.size()));
    let plane = rectify(alloc, image, warp)?;
    Ok(plane.entries() == values && plane.size() == image.size())
}

const HALF: [i64; 9] = [1, 0, 0, 0, 1, 0, 0, 0, 2];

const SLANTED: [i64; 9] = [3, 1, -7, -2, 1, 5, 1, 2, 3];

#[test]
fn places_of_projective_maps(rt: HostRuntime) -> Result<(), Fail> {
    let small = size_of(5, 3)?;
    let (half, slanted) = (Warp::Projective(HALF), Warp::Projective(SLANTED));
    assert!(rt; place_in(&rt, &half, small, (3, 0)) == (384, 0));
    assert!(rt; place_in(&rt, &slanted, small, (0, 0)) == (-598, 426));
    assert!(rt; place_in(&rt, &slanted, small, (4, 2)) == (162, -24));
    Ok(())
}

#[test]
fn places_of_meshes(rt: HostRuntime) -> Result<(), Fail> {
    let nodes = &[(0, 0), (511, 0), (0, 512), (511, 512)];
    let row = mesh_of(rt.alloc(), 2, 2, 2, nodes)?;
    assert!(rt; place_in(&rt, &row, size_of(2, 1)?, (1, 0)) == (255, 0));
    let nodes = &[(0, 0), (300, 3), (600, 6), (9, 300), (309, 303), (609, 306)];
    let wide = mesh_of(rt.alloc(), 3, 3, 2, nodes)?;
    assert!(rt; place_in(&rt, &wide, size_of(5, 3)?, (4, 1)) == (403, 104));
    Ok(())
}

/// The first fault of a warp whose numbers are in range.
fn fault_of(rt: &impl Abort, warp: &Warp, size: Size) -> Option<WarpFault> {
    assert!(rt; is_in_range(warp));
    warp.check(size).err()
}

#[test]
fn a_denominator_of_zero(rt: HostRuntime) -> Result<(), Fail> {
    let size = size_of(5, 3)?;
    let warp = Warp::Projective([1, 0, 0, 0, 1, 0, -1, 0, 4]);
    let fault = WarpFault::Denominator { corner: 1 };
    assert!(rt; fault_of(&rt, &warp, size) == Some(fault));
    let warp = Warp::Projective([1, 0, 0, 0, 1, 0, -1, -1, 7]);
    assert!(rt; fault_of(&rt, &warp, size) == None);
    Ok(())
}

#[test]
fn a_mesh_of_another_size(rt: HostRuntime) -> Result<(), Fail> {
    let mesh = mesh_of(rt.alloc(), 2, 3, 2, &[(0, 0); 6])?;
    let fault = WarpFault::MeshSize {
        cols: 3,
        rows: 2,
        need_cols: 2,
        need_rows: 2,
    };
    assert!(rt; fault_of(&rt, &mesh, size_of(2, 1)?) == Some(fault));
    assert!(rt; fault_of(&rt, &mesh, size_of(4, 2)?) == None);
    Ok(())
}

#[test]
fn values_between_two_samples(rt: HostRuntime) -> Result<(), Fail> {
    let image = image_of(rt.alloc(), size_of(2, 1)?, &[0, 255])?;
    let table = &[
        ((0, 0), 1, 0, Some(1)),
        ((0, 0), 128, 0, Some(128)),
        ((0, 0), 256, 0, Some(255)),
        ((0, 0), 257, 0, None),
        ((0, 0), -1, 0, None),
    ];
    assert_values(&rt, rt.alloc(), &image, table)
}

#[test]
fn values_inside_and_outside(rt: HostRuntime) -> Result<(), Fail> {
    let image = image_of(rt.alloc(), size_of(3, 2)?, &[10, 20, 30, 40, 50, 60])?;
    let table = &[
        ((0, 0), 128, 128, Some(30)),
        ((1, 0), 64, 192, Some(45)),
        ((2, 0), 1, 0, None),
        ((2, 0), 0, 128, Some(45)),
        ((2, 1), 0, 1, None),
        ((1, 0), -256, 0, Some(10)),
        ((0, 1), 0, -257, None),
        ((0, 0), 512, 256, Some(60)),
        ((0, 0), MAX_ENTRY, 0, None),
    ];
    assert_values(&rt, rt.alloc(), &image, table)
}

#[test]
fn a_row_moved_by_one_column(rt: HostRuntime) -> Result<(), Fail> {
    let image = image_of(rt.alloc(), size_of(5, 1)?, &[90, 10, 50, 20, 40])?;
    let moved = Warp::Projective([1, 0, 1, 0, 1, 0, 0, 0, 1]);
    let want = [Some(10), Some(50), Some(20), Some(40), None];
    assert!(rt; is_rectified(&rt, rt.alloc(), &image, &moved, &want)?);
    Ok(())
}

fn is_shareable<T: Send + Sync>() -> bool {
    true
}

#[test]
fn threads_may_share_warps(rt: HostRuntime) {
    assert!(rt; is_shareable::<Warp>());
}
