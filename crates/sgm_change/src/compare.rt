ghost use Rattle.std.specs.Prelude.{◌≡◌, ◌+◌, ◌++◌, ◌∷◌, [], ℕ, ℤ, pos, List, Option, All, length};
ghost use Rattle.std.specs.Prelude.{Some};
ghost use Rattle.std.specs.List.{zip};
ghost use Rattle.std.specs.Option.{ForSome};
ghost use Rattle.sgm_base.specs.Ranges.{IsFromTo};
ghost use Rattle.sgm_grid.specs.Cells.{IsHeight};
ghost use Rattle.sgm_grid.specs.declared.limits.TheConstants.{MAX_CELL};
ghost use Rattle.sgm_change.specs.Changes.{change_of, changed_over};
ghost use Rattle.sgm_change.specs.Counts.{HasRoom, counts_of};

use sgm_grid::Grid;

/// What changed from an earlier grid to a later one. Volumes are in cubic micrometres.
#[derive(Clone, Copy, PartialEq, Eq)]
pub struct Changed {
    /// The number of cells that have a height in both.
    pub both: u64,
    /// The number of cells that have a height in the later one alone.
    pub come: u64,
    /// The number of cells that have a height in the earlier one alone.
    pub gone: u64,
    /// The number of cells that are empty in both.
    pub empty: u64,
    /// The volume by which the cells that have a height in both rose.
    pub fill: u128,
    /// The volume by which the cells that have a height in both fell.
    pub cut: u128,
}

/// What some cells amount to, before heights are multiplied by the ground that a cell covers.
#[derive(Clone, Copy)]
struct Counts {
    both: u64,
    come: u64,
    gone: u64,
    empty: u64,
    risen: u64,
    fallen: u64,
}

/// What changed between two grids of the same ranges: how many cells have a height in both, in one
/// alone and in neither, and the volumes by which the cells that have a height in both rose and
/// fell. Takes no memory.
pub fn change(earlier: &Grid, later: &Grid) -> Changed
    requires { earlier.now.spec ≡ later.now.spec }
    ensures { result ≡ change_of earlier.now later.now }
{
    let spec = earlier.spec();
    let mut counts = no_counts();
    for row in 0..spec.rows {
        counts = counts.with_row(earlier.row(row), later.row(row));
    }
    counts.over(spec.cell)
}

/// Of no cells.
fn no_counts() -> Counts
    ensures { result ≡ counts_of [] }
{
    Counts {
        both: 0,
        come: 0,
        gone: 0,
        empty: 0,
        risen: 0,
        fallen: 0,
    }
}

impl Counts {
    /// Of the cells of a row besides.
    fn with_row(self, earlier: &[Option<i32>], later: &[Option<i32>]) -> Counts
        requires lengths { length later.now ≡ length earlier.now }
        requires earlier { All (λ height. ForSome height IsHeight) earlier.now }
        requires later { All (λ height. ForSome height IsHeight) later.now }
        requires room { HasRoom self (length earlier.now) }
        ensures value { (cells : List (Option ℤ × Option ℤ)) → self ≡ counts_of cells
            → result ≡ counts_of (cells ++ zip earlier.now later.now) }
        ensures room { (left : ℕ) → HasRoom self (left + length earlier.now) → HasRoom result left }
    {
        let mut counts = self;
        for (before, after) in earlier.iter().zip(later) {
            counts = counts.with_cell(*before, *after);
        }
        counts
    }

    /// Of one cell besides.
    fn with_cell(self, earlier: Option<i32>, later: Option<i32>) -> Counts
        requires earlier { ForSome earlier IsHeight }
        requires later { ForSome later IsHeight }
        requires room { HasRoom self 1 }
        ensures value { (cells : List (Option ℤ × Option ℤ)) → self ≡ counts_of cells
            → result ≡ counts_of (cells ++ (earlier, later) ∷ []) }
        ensures room { (left : ℕ) → HasRoom self (left + 1) → HasRoom result left }
    {
        match (earlier, later) {
            (Some(before), Some(after)) => self.with_both(before, after),
            (None, Some(_)) => Counts {
                come: self.come + 1,
                ..self
            },
            (Some(_), None) => Counts {
                gone: self.gone + 1,
                ..self
            },
            (None, None) => Counts {
                empty: self.empty + 1,
                ..self
            },
        }
    }

    /// Of one cell besides that has a height in both.
    fn with_both(self, earlier: i32, later: i32) -> Counts
        requires earlier { IsHeight earlier }
        requires later { IsHeight later }
        requires room { HasRoom self 1 }
        ensures value { (cells : List (Option ℤ × Option ℤ)) → self ≡ counts_of cells
            → result ≡ counts_of (cells ++ (Some earlier, Some later) ∷ []) }
        ensures room { (left : ℕ) → HasRoom self (left + 1) → HasRoom result left }
    {
        let over = later as i64 - earlier as i64;
        Counts {
            both: self.both + 1,
            risen: self.risen + over.max(0) as u64,
            fallen: self.fallen + (-over).max(0) as u64,
            ..self
        }
    }

    /// What changed where a cell has that side.
    fn over(self, side: i64) -> Changed
        requires side { IsFromTo (pos 1) MAX_CELL side }
        requires room { HasRoom self 0 }
        ensures { (cells : List (Option ℤ × Option ℤ)) → self ≡ counts_of cells
            → result ≡ changed_over side cells }
    {
        let square = side as u128 * side as u128;
        Changed {
            both: self.both,
            come: self.come,
            gone: self.gone,
            empty: self.empty,
            fill: self.risen as u128 * square,
            cut: self.fallen as u128 * square,
        }
    }
}
