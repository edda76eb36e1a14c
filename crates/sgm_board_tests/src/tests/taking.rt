//! Two strips: the lower one comes first in the direction Up, and the upper one in the direction
//! Down.
ghost use Rattle.std.specs.Prelude.{◌≡◌, ◌<◌, true};
ghost use Rattle.sgm_strip.specs.Scenes.{row_length};
ghost use Rattle.sgm_board.specs.Boards.{scene_of, strips_of, HoldsOnly, IsIdlePassOf};

use super::working::hand_on;
use sgm_board::{Board, Pass};
use sgm_energy::Dir;
use sgm_strip::{Parcel, Row};
use std::test::Fail;

/// Whether a strip isn't given.
pub(super) fn refuses(board: &Board, pass: &mut Pass, strip: u32) -> bool
    requires idle { IsIdlePassOf board.now pass.old }
    requires strip { strip < strips_of board.now }
    ensures idle { result ≡ true → IsIdlePassOf board.now pass.new }
{
    match board.try_claim(pass, strip) {
        Some(_) => false,
        None => true,
    }
}

/// The pass claims the lower strip, where it doesn't get the front of Down, and passes that of Up
/// on.
pub(super) fn lower_strip_goes_first(
    board: &Board,
    pass: &mut Pass,
    spare: &mut Row,
) -> Result<(), Fail>
    requires idle { IsIdlePassOf board.now pass.old }
    requires two { 1 < strips_of board.now }
    requires spare { spare.old ≡ row_length (scene_of board.now) }
{
    let Some(mut lower) = board.try_claim(pass, 1) else {
        return Err("strip 1 is free")?;
    };
    if hand_on(board, pass, &mut lower, spare, Dir::Down) {
        return Err("strip 1 comes second in the direction Down")?;
    }
    if !hand_on(board, pass, &mut lower, spare, Dir::Up) {
        return Err("strip 1 comes first in the direction Up")?;
    }
    Ok(())
}

/// Then the pass that holds the upper strip gets the front of Up.
pub(super) fn upper_strip_goes_second(
    board: &Board,
    pass: &mut Pass,
    upper: &Parcel,
) -> Result<(), Fail>
    requires holds { HoldsOnly board.now pass.old upper.now }
{
    let Some(front) = board.try_take(pass, upper, Dir::Up) else {
        return Err("strip 0 comes second in the direction Up")?;
    };
    if front.next() != 1 {
        return Err("the front visited strip 1")?;
    }
    Ok(())
}
