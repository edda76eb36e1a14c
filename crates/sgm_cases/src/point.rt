//! `point M0 .. M8 EAST NORTH UP X Y H`: a camera's point in the frame of the site, by a pose's
//! matrix, row by row, and its shifts: its three numbers, or `none`. Numbers out of range are
//! `no such pose` and `no such point`.

ghost use Rattle.std.specs.Prelude.{◌^◌, ◌≤◌, pos, neg_ℤ, IfSome};
ghost use Rattle.sgm_base.specs.Ranges.{IsFromTo, Within};
ghost use Rattle.sgm_height.specs.Pose.{IsAxis, IsInRange};

use crate::parts::words_of;
use sgm_base::Point;
use sgm_height::{Axes, Axis, MAX_AXIS, MAX_SITE, Pose};
use std::alloc::{AllocError, Global};
use std::fmt::Write;

/// How far from 0 a number of a camera's point may lie.
const FARTHEST: i64 = 144_115_188_075_855_872;

/// The number that a word is, where it is no further from 0 than `most`.
fn number_at(words: &[String], index: usize, most: i64) -> Option<i64>
    ensures { IfSome result (λ number. IsFromTo (neg_ℤ most) most number) }
{
    let number: i64 = words.get(index)?.as_str().parse().ok()?;
    if i128::from(number).abs() <= i128::from(most) {
        Some(number)
    } else {
        None
    }
}

/// The axis that three words tell.
fn axis_at(words: &[String], first: usize) -> Option<Axis>
    requires { first ≤ 6 }
    ensures { IfSome result IsAxis }
{
    Some(Axis {
        x: number_at(words, first, MAX_AXIS)?,
        y: number_at(words, first + 1, MAX_AXIS)?,
        h: number_at(words, first + 2, MAX_AXIS)?,
    })
}

fn axes_of(words: &[String]) -> Option<Axes>
    ensures east { IfSome result (λ axes. IsAxis axes.east) }
    ensures north { IfSome result (λ axes. IsAxis axes.north) }
    ensures up { IfSome result (λ axes. IsAxis axes.up) }
{
    Some(Axes {
        east: axis_at(words, 0)?,
        north: axis_at(words, 3)?,
        up: axis_at(words, 6)?,
    })
}

/// The pose that the first twelve words tell.
fn pose_of(words: &[String]) -> Option<Pose>
    ensures { IfSome result IsInRange }
{
    Some(Pose {
        axes: axes_of(words)?,
        east: number_at(words, 9, MAX_SITE)?,
        north: number_at(words, 10, MAX_SITE)?,
        up: number_at(words, 11, MAX_SITE)?,
    })
}

/// The point that the three words behind them tell.
fn point_of(words: &[String]) -> Option<Point>
    ensures x { IfSome result (λ p. Within (2 ^ 57) p.x) }
    ensures y { IfSome result (λ p. Within (2 ^ 57) p.y) }
    ensures h { IfSome result (λ p. Within (2 ^ 57) p.h) }
{
    Some(Point {
        x: number_at(words, 12, FARTHEST)?,
        y: number_at(words, 13, FARTHEST)?,
        h: number_at(words, 14, FARTHEST)?,
    })
}

fn text_of(alloc: Global, placed: Option<Point>) -> Result<String, AllocError> {
    match placed {
        None => String::from_str(alloc, "none"),
        Some(Point { x, y, h }) => format!(in alloc; "{x} {y} {h}"),
    }
}

/// The answer to the case of that text.
pub fn answer(alloc: Global, case: &str) -> Result<String, AllocError> {
    let words = words_of(alloc, case)?;
    match (pose_of(&words), point_of(&words)) {
        (None, _) => String::from_str(alloc, "no such pose"),
        (_, None) => String::from_str(alloc, "no such point"),
        (Some(pose), Some(point)) => text_of(alloc, pose.place(point)),
    }
}
