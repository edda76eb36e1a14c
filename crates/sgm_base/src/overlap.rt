ghost use Rattle.std.specs.Prelude.{◌≡◌, ℕ, ◌+◌, ◌-◌, ◌<◌, ◌≤◌, ◌&&◌, nat_le, nat_lt};
ghost use Rattle.std.specs.Prelude.{if◌then◌else◌, Some, None};
ghost use Rattle.sgm_base.specs.Columns.{left_column};

use crate::Span;

/// Which indices give a column of a row a column of the other image: `len` of them after the first
/// `skipped`, one column after the other from `start` on.
#[derive(Clone, Copy, PartialEq, Eq)]
pub struct Overlap {
    pub skipped: usize,
    pub start: usize,
    pub len: usize,
}

impl Overlap {
    /// The indices d at which `at + first + d` is a column of a row so wide.
    pub fn of(width: usize, span: Span, at: usize) -> Overlap
        ensures indices { result.skipped + result.len ≤ span.count }
        ensures columns { result.start + result.len ≤ width }
        ensures each { (d : ℕ) → d < span.count → left_column width span.first at d
            ≡ (if nat_le result.skipped d
            && nat_lt d (result.skipped + result.len)
            then Some (result.start + (d - result.skipped)) else None) }
    {
        let shift = span.first.unsigned_abs() as usize;
        let count = span.count as usize;
        let (before, start) = if span.first < 0 {
            (shift.saturating_sub(at), at.saturating_sub(shift))
        } else {
            (0, at.saturating_add(shift))
        };
        let skipped = before.min(count);
        let start = start.min(width);
        let len = (width - start).min(count - skipped);
        Overlap {
            skipped,
            start,
            len,
        }
    }
}
