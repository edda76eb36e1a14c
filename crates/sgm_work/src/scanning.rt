//! One worker and the strips.
ghost use Rattle.std.specs.Prelude.{◌≡◌, ◌+◌, ◌<◌, ◌≤◌, false, Some};
ghost use Rattle.sgm_energy.specs.Dirs.{front_of, is_level};
ghost use Rattle.sgm_strip.specs.Scenes.{row_length};
ghost use Rattle.sgm_board.specs.Boards.{parts_of, scene_of, strips_of, IsIdlePassOf, HoldsOnly};
ghost use Rattle.sgm_work.specs.Tries.{HasTried, HasTriedFirst, HasVisited};
ghost use Rattle.sgm_work.specs.Worked.{IsSamePass, LooksMore, TriesWhatItClaims};

use crate::gate::{Came, Gate, come};
use sgm_board::{Board, Pass};
use sgm_energy::Dir;
use sgm_strip::{Parcel, Row, pass as go_through};

/// The number of fronts: one for each direction that is not level.
pub(crate) const FRONTS: usize = Dir::FRONTS.len();

/// The direction of a front.
pub(crate) fn dir_of(front: usize) -> Dir
    requires { front < 6 }
    ensures front { front_of result ≡ Some front }
    ensures across { is_level result ≡ false }
{
    let Some(dir) = Dir::from_front(front) else {
        unreachable!()
    };
    dir
}

/// Tries to take the front of a direction at the strip held, with which the worker came to the
/// gate, and passes it on if it comes. Answers how many were passed on.
fn hand_on<G>(
    board: &Board,
    pass: &mut Pass,
    parcel: &mut Parcel,
    spare: &mut Row,
    dir: Dir,
    came: &Came<G>,
) -> u32
    requires came { (came.now.worker ≡ (parts_of pass.old).number)
        × (came.now.task ≡ parcel.old.strip) }
    requires holds { HoldsOnly board.now pass.old parcel.old }
    requires spare { spare.old ≡ row_length (scene_of board.now) }
    requires across { is_level dir ≡ false }
    ensures holds { HoldsOnly board.now pass.new parcel.new }
    ensures spare { spare.new ≡ spare.old }
    ensures few { result ≤ 1 }
    ensures tried { HasTried parcel.old.strip dir result (parts_of pass.old) (parts_of pass.new) }
{
    let Some(mut front) = board.try_take(pass, parcel, dir) else {
        return 0;
    };
    go_through(parcel, &mut front, spare, came.worker());
    board.put(pass, parcel, front);
    1
}

/// Comes to the gate with the strip held, tries each direction there, and gives the strip back.
fn serve<G: Gate>(
    board: &Board,
    pass: &mut Pass,
    mut parcel: Parcel,
    spare: &mut Row,
    gate: &G,
) -> u32
    requires holds { HoldsOnly board.now pass.old parcel }
    requires spare { spare.old ≡ row_length (scene_of board.now) }
    ensures idle { IsIdlePassOf board.now pass.new }
    ensures spare { spare.new ≡ spare.old }
    ensures few { result ≤ 6 }
    ensures tried { HasTriedFirst parcel.strip 6 result (parts_of pass.old) (parts_of pass.new) }
{
    let came = come(gate, pass.number(), parcel.strip());
    let mut handed = 0;
    for front in 0..FRONTS {
        handed += hand_on(board, pass, &mut parcel, spare, dir_of(front), &came);
    }
    board.give_back(pass, parcel);
    handed
}

/// Tries to claim a strip, and each direction at it if it is claimed.
fn visit<G: Gate>(board: &Board, pass: &mut Pass, spare: &mut Row, strip: u32, gate: &G) -> u32
    requires idle { IsIdlePassOf board.now pass.old }
    requires spare { spare.old ≡ row_length (scene_of board.now) }
    requires strip { strip < strips_of board.now }
    ensures idle { IsIdlePassOf board.now pass.new }
    ensures spare { spare.new ≡ spare.old }
    ensures few { result ≤ 6 }
    ensures visited { HasVisited strip result (parts_of pass.old) (parts_of pass.new) }
{
    match board.try_claim(pass, strip) {
        Some(parcel) => serve(board, pass, parcel, spare, gate),
        None => 0,
    }
}

/// Tries each strip once, in order. With each strip that it claims it comes to the gate, then tries
/// each of the six directions that are not level once, passes on the fronts that it gets, and gives
/// the strip back. Answers how many fronts it passed on. What `spare`, which has room for a row,
/// holds does not matter. Takes no memory.
pub fn scan<G: Gate>(board: &Board, pass: &mut Pass, spare: &mut Row, gate: &G) -> u32
    requires idle { IsIdlePassOf board.now pass.old }
    requires spare { spare.old ≡ row_length (scene_of board.now) }
    ensures idle { IsIdlePassOf board.now pass.new }
    ensures spare { spare.new ≡ spare.old }
    ensures same { IsSamePass (parts_of pass.old) (parts_of pass.new) }
    ensures handed { (parts_of pass.new).puts ≡ (parts_of pass.old).puts + result }
    ensures looked { LooksMore 1 (strips_of board.now) (parts_of pass.old) (parts_of pass.new) }
    ensures tried { TriesWhatItClaims (parts_of pass.old) (parts_of pass.new) }
{
    let mut handed = 0;
    for strip in 0..board.strips() {
        handed += visit(board, pass, spare, strip, gate);
    }
    handed
}
