//! What a cell holds while grids are added.

ghost use Rattle.std.specs.Prelude.{◌≡◌, ◌<◌, ◌==◌, pos, if◌then◌else◌};
ghost use Rattle.std.specs.Int.{int_max};
ghost use Rattle.std.specs.Option.{ForSome};
ghost use Rattle.sgm_base.specs.Rounding.{rounded};
ghost use Rattle.sgm_grid.specs.Cells.{IsHeight};
ghost use Rattle.sgm_merge.specs.Tallies.{kept_of, no_heights, with_height};
ghost use Rattle.sgm_merge.specs.declared.limits.TheConstants.{MAX_ENTRIES};

use sgm_base::round_div;
use sgm_grid::Keep;
use std::marker::Model;

/// The sum, the number and the greatest of some heights, in 16 bytes.
#[derive(Clone, Copy)]
pub(crate) struct Tally {
    total: i64,
    count: u32,
    highest: i32,
}

impl Model for Tally {
    ghost use Rattle.sgm_merge.specs.Tallies.{Heights, IsHeights};

    ghost Value = { Heights };

    ghost view = { λ t. record { total = t.total; count = t.count; highest = t.highest } };

    ghost inverse = { λ t. record { total = t.total; count = t.count; highest = t.highest } };

    ghost invariant = { λ t.
        IsHeights (record { total = t.total; count = t.count; highest = t.highest }) };
}

impl Tally {
    /// Of no heights.
    pub(crate) fn none() -> Tally
        ensures { result ≡ no_heights }
    {
        Tally {
            total: 0,
            count: 0,
            highest: 0,
        }
    }

    /// Of one height more.
    pub(crate) fn with(self, height: i32) -> Tally
        requires height { IsHeight height }
        requires room { self.count < MAX_ENTRIES }
        ensures { result ≡ with_height self height }
    {
        Tally {
            total: self.total + height as i64,
            count: self.count + 1,
            highest: self.highest_with(height),
        }
    }

    /// The greatest with one height more.
    fn highest_with(self, height: i32) -> i32
        requires { IsHeight height }
        ensures value { result ≡ (if self.count == 0 then height else int_max self.highest height) }
        ensures in_range { IsHeight result }
    {
        if self.count == 0 {
            return height;
        }
        self.highest.max(height)
    }

    /// What is kept of the heights; None of no heights.
    pub(crate) fn kept(self, keep: Keep) -> Option<i32>
        ensures value { result ≡ kept_of keep self }
        ensures in_range { ForSome result IsHeight }
    {
        if self.count == 0 {
            return None;
        }
        match keep {
            Keep::Highest => Some(self.highest),
            Keep::Mean => Some(self.mean()),
        }
    }

    /// The mean, rounded to whole micrometres, halves upwards.
    fn mean(self) -> i32
        requires { 0 < self.count }
        ensures value { result ≡ rounded self.total (pos self.count) }
        ensures in_range { IsHeight result }
    {
        round_div(self.total as i128, self.count as i128) as i32
    }
}
