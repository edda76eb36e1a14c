//! One worker, from its first scan to its last.
ghost use Rattle.std.specs.Prelude.{◌≡◌, ◌⊎◌, true};
ghost use Rattle.sgm_strip.specs.Scenes.{row_length};
ghost use Rattle.sgm_board.specs.Boards.{parts_of, scene_of, strips_of, IsIdlePassOf};
ghost use Rattle.sgm_work.specs.Tries.{HasGlanced};
ghost use Rattle.sgm_work.specs.Worked.{IsSamePass, LooksMore, SeesAllPassed, TriesWhatItClaims};
ghost use Rattle.sgm_work.specs.Worked.{most_scans};

use crate::gate::Gate;
use crate::scanning::{FRONTS, dir_of, scan};
use sgm_board::{Board, Pass};
use sgm_strip::Row;
use std::thread::yield_now;

/// A worker scans at most six times for each strip, and so many times more. If it could not go on
/// for so long, what is left is done at the end by the caller.
const MORE_SCANS: u64 = 1_048_576;

/// Whether the pass sees, at one look at each direction's word, that all strips were passed. Looks
/// no further than the first direction for which they were not.
fn is_over(board: &Board, pass: &mut Pass) -> bool
    requires idle { IsIdlePassOf board.now pass.old }
    ensures idle { IsIdlePassOf board.now pass.new }
    ensures glanced { HasGlanced (parts_of pass.old) (parts_of pass.new) }
    ensures over { result ≡ true → SeesAllPassed (strips_of board.now) (parts_of pass.new) }
{
    for front in 0..FRONTS {
        if board.passed(pass, dir_of(front)) < board.strips() {
            return false;
        }
    }
    true
}

/// Scans until the pass sees that each direction was passed by all strips, which it asks after
/// every scan, or has scanned 6 * strips + 1,048,576 times. Lets other threads go first after a
/// scan that passed nothing on. What `spare`, which has room for a row, holds does not matter.
/// Takes no memory.
pub fn work<G: Gate>(board: &Board, pass: &mut Pass, spare: &mut Row, gate: &G)
    requires idle { IsIdlePassOf board.now pass.old }
    requires spare { spare.old ≡ row_length (scene_of board.now) }
    ensures idle { IsIdlePassOf board.now pass.new }
    ensures spare { spare.new ≡ spare.old }
    ensures same { IsSamePass (parts_of pass.old) (parts_of pass.new) }
    ensures tried { TriesWhatItClaims (parts_of pass.old) (parts_of pass.new) }
    ensures end { SeesAllPassed (strips_of board.now) (parts_of pass.new)
        ⊎ LooksMore (most_scans (strips_of board.now)) (strips_of board.now) (parts_of pass.old)
        (parts_of pass.new) }
{
    let most = 6 * u64::from(board.strips()) + MORE_SCANS;
    for _round in 0..most {
        let handed = scan(board, pass, spare, gate);
        if is_over(board, pass) {
            return;
        }
        if handed == 0 {
            yield_now();
        }
    }
}
