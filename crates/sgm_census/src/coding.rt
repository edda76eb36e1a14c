//! What rows of codes are made of.

ghost use Rattle.std.specs.Prelude.{◌≡◌, ◌+◌, ◌≤◌};
ghost use Rattle.sgm_base.specs.Values.{IsValues};
ghost use Rattle.sgm_census.specs.Packed.{HoldsPlain};

use crate::{CostRule, Window};
use sgm_base::Plane;

/// A plane's values, row by row, 0 where it is void, whether there is a value, and the plane's
/// sides.
#[derive(Clone, Copy)]
pub(crate) struct Plain<'a> {
    pub(crate) values: &'a [u16],
    pub(crate) there: &'a [bool],
    pub(crate) width: usize,
    pub(crate) height: usize,
}

/// What codes are made of: a plane and what it holds, the window and the rule; and of which rows,
/// so many from `first` on.
#[derive(Clone, Copy)]
pub(crate) struct Coding<'a> {
    pub(crate) plane: &'a Plane,
    pub(crate) plain: Plain<'a>,
    pub(crate) window: Window,
    pub(crate) rule: CostRule,
    pub(crate) first: usize,
    pub(crate) rows: usize,
    ghost holds: { HoldsPlain plane.now plain.values.now plain.there.now plain.width plain.height },
    ghost kept: { IsValues plane.now },
    ghost inside: { first + rows ≤ plane.now.height },
}

impl<'a> Coding<'a> {
    /// The same of other rows.
    pub(crate) fn of_rows(&self, first: usize, rows: usize) -> Coding<'a>
        requires { first + rows ≤ self.now.plane.now.height }
        ensures plane { result.plane.now ≡ self.now.plane.now }
        ensures how { (result.window ≡ self.now.window) × (result.rule ≡ self.now.rule) }
        ensures rows { (result.first ≡ first) × (result.rows ≡ rows) }
    {
        Coding {
            plane: self.plane,
            plain: self.plain,
            window: self.window,
            rule: self.rule,
            first,
            rows,
        }
    }
}
