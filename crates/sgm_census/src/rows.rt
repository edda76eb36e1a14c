//! Rows of codes, one after the other or shared among threads.

ghost use Rattle.std.specs.Prelude.{◌≡◌, ◌*◌, ◌<◌, length, OnOk};
ghost use Rattle.std.specs.Thread.{IsSync};
ghost use Rattle.sgm_census.specs.Codes.{code_by};
ghost use Rattle.sgm_census.specs.Coded.{AreCoded, AreUncoded};
ghost use Rattle.sgm_census.specs.Packed.{AreBlank, HoldsEach};
ghost use Rattle.sgm_census.specs.Windows.{greatest_of};

use crate::CostRule;
use crate::coding::Coding;
use crate::pack::plain_row;
use crate::smoothed::smoothed_row;
use std::alloc::{AllocError, Global};
use std::thread::{Threads, join_mut};

/// Writes the codes of the row `y`, from right to left. What `room`, twice as wide as the plane,
/// holds before does not matter.
fn coded_row(coding: &Coding, y: usize, room: &mut [u16], words: &mut [u64], present: &mut [bool])
    requires row { y < coding.now.plane.now.height }
    requires room_length { length room.old ≡ 2 * coding.now.plane.now.width }
    requires blank { AreBlank (greatest_of coding.now.window) coding.now.plane.now.width words.old
        present.old }
    ensures { let c = coding.now in HoldsEach (greatest_of c.window) c.plane.now.width
        (λ x. code_by c.rule c.plane.now c.window x y) words.new present.new }
{
    let rule = coding.rule;
    match rule {
        CostRule::Plain => plain_row(coding, y, room, words, present),
        CostRule::Smoothed => smoothed_row(coding, y, room, words, present),
    }
}

/// Writes the codes of the rows, one after the other, each from right to left. What `room`, twice
/// as wide as the plane, holds before does not matter.
fn coded_rows(coding: &Coding, room: &mut [u16], words: &mut [u64], present: &mut [bool])
    requires room_length { length room.old ≡ 2 * coding.now.plane.now.width }
    requires blank { AreUncoded coding.now words.old present.old }
    ensures { AreCoded coding.now words.new present.new }
{
    let (width, first, rows) = (coding.plain.width, coding.first, coding.rows);
    for r in 0..rows {
        let (_, rest) = words.split_at_mut(r * width);
        let (row_words, _) = rest.split_at_mut(width);
        let (_, rest) = present.split_at_mut(r * width);
        let (row_present, _) = rest.split_at_mut(width);
        coded_row(coding, first + r, room, row_words, row_present);
    }
}

/// Writes the codes of the rows in the caller's thread, with the room that this takes.
pub(crate) fn own_rows(
    alloc: Global,
    coding: &Coding,
    words: &mut [u64],
    present: &mut [bool],
) -> Result<(), AllocError>
    requires { AreUncoded coding.now words.old present.old }
    ensures { OnOk result (AreCoded coding.now words.new present.new) }
{
    let mut room = vec![in alloc; 0u16; 2 * coding.plain.width]?;
    coded_rows(coding, room.as_mut_slice(), words, present);
    Ok(())
}

/// Writes the codes of the rows by at most so many threads: where there is more than one, each half
/// of the rows by half of them.
#[cycle(shared)]
pub(crate) fn shared_rows<R: Threads + Sync>(
    rt: &R,
    alloc: Global,
    coding: &Coding,
    threads: usize,
    words: &mut [u64],
    present: &mut [bool],
) -> Result<(), AllocError>
    requires { AreUncoded coding.now words.old present.old }
    ensures { OnOk result (AreCoded coding.now words.new present.new) }
{
    if threads < 2 || coding.rows < 2 {
        return own_rows(alloc, coding, words, present);
    }
    let above = coding.rows / 2;
    let upper = coding.of_rows(coding.first, above);
    let lower = coding.of_rows(coding.first + above, coding.rows - above);
    let (few, others) = (threads / 2, threads - threads / 2);
    let (upper_words, lower_words) = words.split_at_mut(above * coding.plain.width);
    let (upper_present, lower_present) = present.split_at_mut(above * coding.plain.width);
    let mut first = || -> Result<(), AllocError>
        requires { IsSync R.row × AreUncoded upper upper_words.now upper_present.now }
        ensures { OnOk result (AreCoded upper.entry upper_words.exit.now upper_present.exit.now) }
    { shared_rows(rt, alloc, &upper, few, upper_words, upper_present) };
    let mut second = || -> Result<(), AllocError>
        requires { IsSync R.row × AreUncoded lower lower_words.now lower_present.now }
        ensures { OnOk result (AreCoded lower.entry lower_words.exit.now lower_present.exit.now) }
    { shared_rows(rt, alloc, &lower, others, lower_words, lower_present) };
    let (one, other) = join_mut(rt, &mut first, &mut second);
    one?;
    other
}
