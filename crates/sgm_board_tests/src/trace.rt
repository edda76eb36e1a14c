//! Certificates that were worked out by hand, over images whose three rows are alike. With a window
//! of 3 x 3 only the pixels of the middle row have codes, the first and the last excepted;
//! everywhere else each index costs 8. A cost is 3 for each side, left and right, on which two
//! codes differ.
ghost use Rattle.std.specs.Prelude.{◌≡◌, IsTrue, nat_le, unwrap_or};
ghost use Rattle.std.specs.List.{list_all};

use sgm_base::{Plane, Size, Span};
use sgm_census::{CodePlane, CostRule, Window, codes};
use sgm_energy::{Dir, Pen};
use sgm_strip::{Guide, Scene};
use sgm_trace::{Step, Traced, trace, write_trace};
use std::alloc::Global;
use std::test::Fail;

fn plane_of(alloc: Global, row: &[Option<u16>]) -> Result<Plane, Fail> {
    if 4096 < row.len() {
        return Err("width")?;
    }
    let size = Size::make(row.len() as u32, 3).ok_or("size")?;
    Ok(Plane::make(size, [row, row, row].concat(alloc)?).ok_or("entries")?)
}

fn codes_of(alloc: Global, row: &[Option<u16>]) -> Result<CodePlane, Fail> {
    let window = Window::make(3, 3).ok_or("window")?;
    Ok(codes(alloc, &plane_of(alloc, row)?, window, CostRule::Plain)?)
}

fn are_bytes(entries: &[Option<u16>]) -> bool
    ensures { result ≡ list_all (λ entry. nat_le (unwrap_or entry 0) 255) entries.now }
{
    entries.iter().all(|entry| entry.unwrap_or(0) <= 255)
}

/// The guide of a plane whose values go up to 255.
fn guide_of(alloc: Global, row: &[Option<u16>]) -> Result<Guide, Fail> {
    let plane = plane_of(alloc, row)?;
    if !are_bytes(plane.entries()) {
        return Err("bytes")?;
    }
    Ok(Guide::make(alloc, &plane, 255)?)
}

/// Whether two planes of codes and a guide make a scene.
fn suit(left: &CodePlane, right: &CodePlane, guide: &Guide) -> bool
    ensures width { IsTrue result → left.now.width ≡ right.now.width }
    ensures height { IsTrue result → left.now.height ≡ right.now.height }
    ensures window { IsTrue result → left.now.window ≡ right.now.window }
    ensures rule { IsTrue result → left.now.rule ≡ right.now.rule }
    ensures guide_width { IsTrue result → guide.now.width ≡ left.now.width }
    ensures guide_height { IsTrue result → guide.now.height ≡ left.now.height }
{
    left.size() == right.size()
        && left.window() == right.window()
        && left.rule() == right.rule()
        && guide.size() == left.size()
}

fn scene_of(
    alloc: Global,
    left: &[Option<u16>],
    right: &[Option<u16>],
    guide: &[Option<u16>],
    span: Span,
    pen: Pen,
) -> Result<Scene, Fail> {
    let left = codes_of(alloc, left)?;
    let right = codes_of(alloc, right)?;
    let guide = guide_of(alloc, guide)?;
    if !suit(&left, &right, &guide) {
        return Err("sides")?;
    }
    Ok(Scene::make(left, right, span, pen, guide))
}

/// Five columns with the indices 0 and 1. The costs in the middle row are (8, 8), (6, 8), (6, 0),
/// (6, 0), (8, 8).
fn example(alloc: Global) -> Result<Scene, Fail> {
    let left = [90, 10, 50, 20, 40].map(Some);
    let right = [10, 50, 20, 40, 30].map(Some);
    let span = Span::make(0, 2).ok_or("span")?;
    let pen = Pen::make(1, 3).ok_or("pen")?;
    scene_of(alloc, &left, &right, &left, span, pen)
}

/// The certificate of an index of the scene, where the pixel and the index are inside.
fn traced(alloc: Global, scene: &Scene, dir: Dir, x: u32, y: u32, d: u32) -> Result<Traced, Fail> {
    let size = scene.size();
    let span = scene.span();
    if size.width <= x || size.height <= y || span.count <= d {
        return Err("inside")?;
    }
    Ok(trace(alloc, scene, dir, x, y, d)?)
}

/// A step's column, row, index, cost and what its change costs.
type Wanted = (u32, u32, u32, u8, u16);

fn is_step(step: Step, wanted: Wanted) -> bool {
    (step.x, step.y, step.d, step.cost, step.jump) == wanted
}

/// Whether a certificate has this energy and these steps.
fn has(found: &Traced, energy: u32, wanted: &[Wanted]) -> bool {
    found.energy == energy
        && found.steps.len() == wanted.len()
        && found
            .steps
            .iter()
            .zip(wanted)
            .all(|(step, wanted)| is_step(*step, *wanted))
}

/// The certificate of an index of those five columns.
fn of_example(alloc: Global, dir: Dir, x: u32, y: u32, d: u32) -> Result<Traced, Fail> {
    let scene = example(alloc)?;
    traced(alloc, &scene, dir, x, y, d)
}

/// Along the row the first two pixels cost least with 0 and the third with 1: 8 + 6 + 0 and one
/// change by one.
#[test]
fn along_a_row(rt: HostRuntime) -> Result<(), Fail> {
    let found = of_example(rt.alloc(), Dir::Right, 2, 1, 1)?;
    let steps = &[(0, 1, 0, 8, 0), (1, 1, 0, 6, 0), (2, 1, 1, 0, 1)];
    assert!(rt; has(&found, 15, steps));
    Ok(())
}

/// At a pixel that begins its ray there is the one index that is asked for.
#[test]
fn one_pixel(rt: HostRuntime) -> Result<(), Fail> {
    let found = of_example(rt.alloc(), Dir::Down, 0, 0, 0)?;
    assert!(rt; has(&found, 8, &[(0, 0, 0, 8, 0)]));
    Ok(())
}

/// Up and to the right: from (0, 2) over (1, 1), which has index 0 for 6, to (2, 0).
#[test]
fn across_the_rows(rt: HostRuntime) -> Result<(), Fail> {
    let found = of_example(rt.alloc(), Dir::UpRight, 2, 0, 1)?;
    let steps = &[(0, 2, 0, 8, 0), (1, 1, 0, 6, 0), (2, 0, 1, 8, 1)];
    assert!(rt; has(&found, 23, steps));
    Ok(())
}

/// The certificate of the last of the three indices from -1 on at a pixel of the middle row.
fn along(
    alloc: Global,
    left: [u16; 6],
    right: [u16; 6],
    guide: [u16; 6],
    pen: Pen,
    x: u32,
) -> Result<Traced, Fail> {
    let span = Span::make(-1, 3).ok_or("span")?;
    let scene = scene_of(
        alloc,
        &left.map(Some),
        &right.map(Some),
        &guide.map(Some),
        span,
        pen,
    )?;
    traced(alloc, &scene, Dir::Right, x, 1, 2)
}

/// The costs are (8, 8, 8), (3, 3, 8), (6, 3, 3), (0, 0, 3). The sequences 0 0 2 2, 1 1 1 2 and 1 1
/// 2 2 have 20, and none has less. From the ends backwards the second comes first; from the front
/// the first would.
#[test]
fn a_tie(rt: HostRuntime) -> Result<(), Fail> {
    let left = [30, 30, 40, 30, 40, 20];
    let pen = Pen::make(3, 3).ok_or("pen")?;
    let found = along(rt.alloc(), left, [30, 40, 40, 20, 20, 30], left, pen, 3)?;
    let steps = &[
        (0, 1, 1, 8, 0),
        (1, 1, 1, 3, 0),
        (2, 1, 1, 3, 0),
        (3, 1, 2, 3, 3),
    ];
    assert!(rt; has(&found, 20, steps));
    Ok(())
}

/// The certificate of the last index at the third pixel of a row. The costs are (8, 8, 8), (0, 6,
/// 8), (6, 6, 0). From the second pixel to the third the guide changes by 3.
fn along_a_guide(alloc: Global, pen: Pen) -> Result<Traced, Fail> {
    let left = [30, 30, 40, 30, 40, 20];
    let guide = [5, 5, 8, 8, 8, 8];
    along(alloc, left, [10, 40, 10, 10, 20, 20], guide, pen, 2)
}

/// The guide leaves 4 of the penalty 12, so the change from 0 to 2 pays at the third pixel:
/// 8 + 0 + 0 + 4.
#[test]
fn a_penalty_that_follows_the_image(rt: HostRuntime) -> Result<(), Fail> {
    let pen = Pen::adaptive(1, 12).ok_or("pen")?;
    let found = along_a_guide(rt.alloc(), pen)?;
    let steps = &[(0, 1, 0, 8, 0), (1, 1, 0, 0, 0), (2, 1, 2, 0, 4)];
    assert!(rt; has(&found, 12, steps));
    Ok(())
}

/// With the fixed penalty 1 1 2 has the least, 8 + 6 + 0 + 1.
#[test]
fn a_penalty_that_is_fixed(rt: HostRuntime) -> Result<(), Fail> {
    let pen = Pen::make(1, 12).ok_or("pen")?;
    let found = along_a_guide(rt.alloc(), pen)?;
    let steps = &[(0, 1, 1, 8, 0), (1, 1, 1, 6, 0), (2, 1, 2, 0, 1)];
    assert!(rt; has(&found, 15, steps));
    Ok(())
}

/// The text is added to what stands there.
#[test]
fn a_text(rt: HostRuntime) -> Result<(), Fail> {
    let first = Step {
        x: 10,
        y: 4095,
        d: 255,
        cost: 62,
        jump: 0,
    };
    let second = Step {
        x: 11,
        y: 4094,
        d: 0,
        cost: 0,
        jump: 4000,
    };
    let steps = vec![in rt.alloc(); first, second]?;
    let traced = Traced {
        energy: 4062,
        steps,
    };
    let mut text = Vec::new(rt.alloc());
    text.extend_from_slice(b"before\n")?;
    write_trace(&traced, &mut text)?;
    assert!(rt;
        text.as_slice() == b"before\nleast 4062\n10 4095 255 62 0\n11 4094 0 0 4000\n".as_slice()
    );
    Ok(())
}
