//! Boards can be made, and threads finish one. What is made stands apart from what is asked of it,
//! since each way out of a body is proved to give back all that was made until then.
ghost use Rattle.std.specs.Prelude.{◌≡◌, ◌<◌};
ghost use Rattle.sgm_strip.specs.Scenes.{row_length};
ghost use Rattle.sgm_board.specs.Boards.{scene_of, strips_of, IsIdlePassOf};

use super::making::{row_of, scene_of, two_passes};
use super::sums::are_whole;
use super::taking::{lower_strip_goes_first, refuses, upper_strip_goes_second};
use super::workers::finish_all;
use super::working::work_both;
use sgm_board::{Board, Pass};
use sgm_strip::{Parcel, Row, Scene};
use std::alloc::Global;
use std::test::Fail;
use std::thread::Threads;

/// The first pass takes the upper strip of two, and the second one then gets the lower one alone.
fn go_to_one_at_a_time(
    board: &Board,
    first: &mut Pass,
    second: &mut Pass,
    spare: &mut Row,
) -> Result<(), Fail>
    requires first { IsIdlePassOf board.now first.old }
    requires second { IsIdlePassOf board.now second.old }
    requires two { 1 < strips_of board.now }
    requires spare { spare.old ≡ row_length (scene_of board.now) }
{
    let Some(upper) = board.try_claim(first, 0) else {
        return Err("strip 0 is free")?;
    };
    if !refuses(board, second, 0) {
        return Err("strip 0 is held")?;
    }
    lower_strip_goes_first(board, second, spare)?;
    upper_strip_goes_second(board, first, &upper)
}

/// The same on a board of two strips.
fn go_on_a_board(alloc: Global, scene: &Scene, spare: &mut Row) -> Result<(), Fail>
    requires { spare.old ≡ row_length scene.now }
{
    let (board, mut first, mut second) = two_passes(alloc, scene, 2)?;
    if board.strips() != 2 {
        return Err("strips")?;
    }
    go_to_one_at_a_time(&board, &mut first, &mut second, spare)
}

#[test]
fn a_strip_and_a_front_go_to_one_pass_at_a_time(rt: HostRuntime) -> Result<(), Fail> {
    let scene = scene_of(rt.alloc())?;
    let mut spare = row_of(rt.alloc(), &scene)?;
    go_on_a_board(rt.alloc(), &scene, &mut spare)
}

/// The parcels of a board of three strips on which two threads worked, once the caller has handed
/// on what they left.
fn completed<R: Threads + Sync>(rt: &R, alloc: Global, scene: &Scene) -> Result<Vec<Parcel>, Fail> {
    let mut spare = row_of(alloc, scene)?;
    let rows = (row_of(alloc, scene)?, row_of(alloc, scene)?);
    let (board, first, second) = two_passes(alloc, scene, 3)?;
    let (parcels, fronts) = work_both(rt, board, (first, rows.0), (second, rows.1));
    let (parcels, _) = finish_all(parcels, fronts, &mut spare);
    Ok(parcels)
}

#[test]
fn two_threads_complete_a_board_of_three_strips(rt: HostRuntime) -> Result<(), Fail> {
    let scene = scene_of(rt.alloc())?;
    let parcels = completed(&rt, rt.alloc(), &scene)?;
    assert!(rt; are_whole(&parcels, 3));
    Ok(())
}
