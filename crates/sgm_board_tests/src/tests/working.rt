//! What workers do on a board.
ghost use Rattle.std.specs.Prelude.{◌≡◌, ◌<◌, ◌||◌, ℕ, true, false};
ghost use Rattle.sgm_energy.specs.Dirs.{is_level};
ghost use Rattle.sgm_strip.specs.Scenes.{row_length};
ghost use Rattle.sgm_board.specs.Settled.{AreSettled};
ghost use Rattle.sgm_board.specs.Boards.{parts_of, scene_of, cut_of, passes_of, strips_of};
ghost use Rattle.sgm_board.specs.Boards.{HoldsOnly, IsIdlePassOf};

use super::making::dir_of;
use sgm_board::{Board, Pass};
use sgm_energy::Dir;
use sgm_strip::{Front, Parcel, Row, pass as pass_on};
use std::thread::{Threads, join, yield_now};

/// Tries a front once, and passes it on if it comes.
pub(super) fn hand_on(
    board: &Board,
    pass: &mut Pass,
    parcel: &mut Parcel,
    spare: &mut Row,
    dir: Dir,
) -> bool
    requires holds { HoldsOnly board.now pass.old parcel.old }
    requires spare { spare.old ≡ row_length (scene_of board.now) }
    requires across { is_level dir ≡ false }
    ensures holds { HoldsOnly board.now pass.new parcel.new }
    ensures spare { spare.new ≡ spare.old }
    ensures gathered { (parts_of pass.new).gathered ≡ (parts_of pass.old).gathered }
{
    let Some(mut front) = board.try_take(pass, parcel, dir) else {
        return false;
    };
    let worker = pass.number();
    pass_on(parcel, &mut front, spare, worker);
    board.put(pass, parcel, front);
    true
}

/// Whether the pass sees that a front has passed all strips.
fn has_passed(board: &Board, pass: &mut Pass, number: usize) -> bool
    requires idle { IsIdlePassOf board.now pass.old }
    ensures idle { IsIdlePassOf board.now pass.new }
    ensures gathered { (parts_of pass.new).gathered ≡ (parts_of pass.old).gathered }
{
    match dir_of(number) {
        Some(dir) => board.passed(pass, dir) == board.strips(),
        None => false,
    }
}

/// Whether the pass sees that each front has passed all strips.
fn is_over(board: &Board, pass: &mut Pass) -> bool
    requires idle { IsIdlePassOf board.now pass.old }
    ensures idle { IsIdlePassOf board.now pass.new }
    ensures gathered { (parts_of pass.new).gathered ≡ (parts_of pass.old).gathered }
{
    for number in 0..6 {
        if !has_passed(board, pass, number) {
            return false;
        }
    }
    true
}

/// Tries the front of this number once, and passes it on if it comes.
fn try_front(board: &Board, pass: &mut Pass, parcel: &mut Parcel, spare: &mut Row, number: usize)
    requires holds { HoldsOnly board.now pass.old parcel.old }
    requires spare { spare.old ≡ row_length (scene_of board.now) }
    ensures holds { HoldsOnly board.now pass.new parcel.new }
    ensures spare { spare.new ≡ spare.old }
    ensures gathered { (parts_of pass.new).gathered ≡ (parts_of pass.old).gathered }
{
    match dir_of(number) {
        Some(dir) => {
            hand_on(board, pass, parcel, spare, dir);
        }
        None => {}
    }
}

/// Tries each front once at the strip held, and gives the strip back.
fn serve(board: &Board, pass: &mut Pass, mut parcel: Parcel, spare: &mut Row)
    requires holds { HoldsOnly board.now pass.old parcel }
    requires spare { spare.old ≡ row_length (scene_of board.now) }
    ensures idle { IsIdlePassOf board.now pass.new }
    ensures spare { spare.new ≡ spare.old }
    ensures gathered { (parts_of pass.new).gathered ≡ (parts_of pass.old).gathered }
{
    for number in 0..6 {
        try_front(board, pass, &mut parcel, spare, number);
    }
    board.give_back(pass, parcel);
}

/// Tries to claim a strip, and each front at it if it is claimed.
fn visit(board: &Board, pass: &mut Pass, spare: &mut Row, strip: u32)
    requires idle { IsIdlePassOf board.now pass.old }
    requires spare { spare.old ≡ row_length (scene_of board.now) }
    requires strip { strip < strips_of board.now }
    ensures idle { IsIdlePassOf board.now pass.new }
    ensures spare { spare.new ≡ spare.old }
    ensures gathered { (parts_of pass.new).gathered ≡ (parts_of pass.old).gathered }
{
    match board.try_claim(pass, strip) {
        Some(parcel) => serve(board, pass, parcel, spare),
        None => {}
    }
}

/// Tries to claim each strip once.
fn go_round(board: &Board, pass: &mut Pass, spare: &mut Row)
    requires idle { IsIdlePassOf board.now pass.old }
    requires spare { spare.old ≡ row_length (scene_of board.now) }
    ensures idle { IsIdlePassOf board.now pass.new }
    ensures spare { spare.new ≡ spare.old }
    ensures gathered { (parts_of pass.new).gathered ≡ (parts_of pass.old).gathered }
{
    for strip in 0..board.strips() {
        visit(board, pass, spare, strip);
    }
}

/// Goes round until all fronts have passed all strips; of three strips it tries to claim one at
/// most a million times.
fn work(board: &Board, mut pass: Pass, mut spare: Row) -> Pass
    requires idle { IsIdlePassOf board.now pass }
    requires spare { spare ≡ row_length (scene_of board.now) }
    ensures idle { IsIdlePassOf board.now result }
    ensures gathered { (parts_of result).gathered ≡ (parts_of pass).gathered }
{
    for _ in 0..333_333 {
        go_round(board, &mut pass, &mut spare);
        if is_over(board, &mut pass) {
            return pass;
        }
        yield_now();
    }
    pass
}

/// Two threads work on a board, with a pass each. What they leave is closed.
pub(super) fn work_both<R: Threads + Sync>(
    rt: &R,
    board: Board,
    first: (Pass, Row),
    second: (Pass, Row),
) -> (Vec<Parcel>, Vec<Front>)
    requires first { IsIdlePassOf board first.0 × (first.1 ≡ row_length (scene_of board)) }
    requires second { IsIdlePassOf board second.0 × (second.1 ≡ row_length (scene_of board)) }
    requires all { (k : ℕ) → k < passes_of board
        → ((parts_of first.0).gathered k || (parts_of second.0).gathered k) ≡ true }
    ensures { AreSettled (scene_of board) (cut_of board) result.0.items result.1.items }
{
    let shared = &board;
    let (one, spare) = first;
    let (other, other_spare) = second;
    let (mut one, other) = join(
        rt,
        move || -> Pass
            requires { IsIdlePassOf shared.now one × (spare ≡ row_length (scene_of shared.now)) }
            ensures { IsIdlePassOf shared.entry.now result
                × ((parts_of result).gathered ≡ (parts_of one).gathered) }
        { work(shared, one, spare) },
        move || -> Pass
            requires { IsIdlePassOf shared.now other
                × (other_spare ≡ row_length (scene_of shared.now)) }
            ensures { IsIdlePassOf shared.entry.now result
                × ((parts_of result).gathered ≡ (parts_of other).gathered) }
        { work(shared, other, other_spare) },
    );
    board.join(&mut one, other);
    board.close(one)
}
