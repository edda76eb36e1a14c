//! The points of a survey on their way into the cells of a grid.

ghost use Rattle.std.specs.Prelude.{◌≡◌, ℕ, ◌+◌, ◌*◌, ◌^◌, ◌≤◌, IfOk, replicate};
ghost use Rattle.std.specs.Option.{ForSome};
ghost use Rattle.sgm_base.specs.Ranges.{Within};
ghost use Rattle.sgm_grid.specs.Binning.{HasRoom, grid_in, height_sums, mean_told, most_points};
ghost use Rattle.sgm_grid.specs.Binning.{no_points, no_sum, summed_at, sums_of, with_height};
ghost use Rattle.sgm_grid.specs.Binning.{with_point};
ghost use Rattle.sgm_grid.specs.Cells.{IsGridSpec, IsHeight, cells_of};
ghost use Rattle.sgm_grid.specs.Placing.{IsPlaced, spec_in, with_placed};

use crate::{Grid, GridSpec, Keep, Placed};
use sgm_base::{Point, round_div};
use std::alloc::{AllocError, Global};
use std::marker::Model;

/// What the cells of a grid hold while points are added: the greatest height that fell into each,
/// in 8 bytes, or the sum and the number of the heights, in 16. At most 4294967295 points fall into
/// a cell.
#[derive(Drop)]
pub struct Bins {
    held: Held,
}

#[derive(Drop)]
enum Held {
    Highest(Grid),
    Mean(Sums),
}

/// The sum of each cell, row by row from the north.
#[derive(Drop)]
struct Sums {
    spec: GridSpec,
    sums: Vec<HeightSum>,
}

/// The sum and the number of some heights. The sum of 4294967295 heights still fits 64 bits.
#[derive(Clone, Copy)]
struct HeightSum {
    total: i64,
    count: u32,
}

impl Model for Bins {
    ghost use Rattle.sgm_grid.specs.Binning.{Binned};

    ghost Value = { Binned };

    ghost use Rattle.sgm_grid.specs.Holding.{binned};

    ghost view = { λ b. binned b.held };
}

impl Model for Sums {
    ghost use Rattle.sgm_grid.specs.Binning.{CellSums, sums_of};
    ghost use Rattle.sgm_grid.specs.Summing.{IsCellSums};

    ghost Value = { CellSums };

    ghost view = { λ s. sums_of s.spec s.sums.items };

    ghost invariant = { λ s. IsCellSums (sums_of s.spec s.sums.items) };
}

impl Model for HeightSum {
    ghost use Rattle.sgm_grid.specs.Binning.{Sum};
    ghost use Rattle.sgm_grid.specs.Summing.{IsSum};

    ghost Value = { Sum };

    ghost view = { λ s. record { total = s.total; count = s.count } };

    ghost inverse = { λ s. record { total = s.total; count = s.count } };

    ghost invariant = { λ s. IsSum (record { total = s.total; count = s.count }) };
}

impl Bins {
    /// The cells of a grid, into which no point has fallen.
    pub fn make(alloc: Global, spec: GridSpec, keep: Keep) -> Result<Bins, AllocError>
        requires { IsGridSpec spec }
        ensures value { IfOk result (λ bins. bins ≡ no_points keep spec) }
        ensures room { IfOk result (λ bins. HasRoom bins most_points) }
    {
        let held = match keep {
            Keep::Highest => Held::Highest(Grid::make(alloc, spec)?),
            Keep::Mean => Held::Mean(Sums::make(alloc, spec)?),
        };
        Ok(Bins { held })
    }

    /// Adds a point to the cell into which it falls; one outside the grid changes nothing. A point
    /// on the west or the south side of a cell falls into it. Takes no memory.
    pub fn add(&mut self, p: Point)
        requires height { IsHeight p.h }
        requires east { Within (2 ^ 60) p.x }
        requires north { Within (2 ^ 60) p.y }
        requires room { HasRoom self.old 1 }
        ensures value { self.new ≡ with_point self.old p }
        ensures room { (more : ℕ) → HasRoom self.old (more + 1) → HasRoom self.new more }
    {
        if let Some(placed) = self.spec().placed(p) {
            self.add_placed(placed);
        }
    }

    /// Adds a height to the cell at its place. Takes no memory.
    pub fn add_placed(&mut self, placed: Placed)
        requires placed { IsPlaced (spec_in self.old) placed }
        requires room { HasRoom self.old 1 }
        ensures value { self.new ≡ with_placed self.old placed }
        ensures room { (more : ℕ) → HasRoom self.old (more + 1) → HasRoom self.new more }
    {
        match &mut self.held {
            Held::Highest(grid) => grid.add_placed(placed),
            Held::Mean(sums) => sums.add_placed(placed),
        }
    }

    /// The grid of which these are the cells.
    fn spec(&self) -> GridSpec
        ensures value { result ≡ spec_in self.now }
        ensures ranges { IsGridSpec result }
    {
        match &self.held {
            Held::Highest(grid) => grid.spec(),
            Held::Mean(sums) => sums.spec,
        }
    }

    /// The grid of what each cell keeps of its points.
    pub fn grid(self, alloc: Global) -> Result<Grid, AllocError>
        ensures { IfOk result (λ grid. grid ≡ grid_in self) }
    {
        match self.held {
            Held::Highest(grid) => Ok(grid),
            Held::Mean(sums) => sums.grid(alloc),
        }
    }
}

impl Sums {
    fn make(alloc: Global, spec: GridSpec) -> Result<Sums, AllocError>
        requires { IsGridSpec spec }
        ensures { IfOk result (λ sums. sums
            ≡ sums_of spec (replicate (spec.cols * spec.rows) no_sum)) }
    {
        let cells = spec.cols as usize * spec.rows as usize;
        let sums = vec![in alloc; HeightSum::none(); cells]?;
        Ok(Sums { spec, sums })
    }

    fn add_placed(&mut self, placed: Placed)
        requires placed { IsPlaced self.old.spec placed }
        requires room { HasRoom (height_sums self.old) 1 }
        ensures { self.new ≡ summed_at self.old placed.place placed.height }
    {
        let at = placed.place as usize;
        let sum = self.sums[at];
        self.sums[at] = sum.with(i64::from(placed.height));
    }

    fn grid(self, alloc: Global) -> Result<Grid, AllocError>
        ensures { IfOk result (λ grid. grid ≡ grid_in (height_sums self)) }
    {
        let mut heights = Vec::with_capacity(alloc, self.sums.len())?;
        for sum in &self.sums {
            heights.push(sum.mean())?;
        }
        Ok(Grid::of_heights(self.spec, heights))
    }
}

impl HeightSum {
    fn none() -> HeightSum
        ensures { result ≡ no_sum }
    {
        HeightSum { total: 0, count: 0 }
    }

    fn with(self, height: i64) -> HeightSum
        requires height { IsHeight height }
        requires room { self.count + 1 ≤ most_points }
        ensures { result ≡ with_height self height }
    {
        HeightSum {
            total: self.total + height,
            count: self.count + 1,
        }
    }

    /// The mean, rounded to whole micrometres, halves upwards; None of no height.
    fn mean(self) -> Option<i32>
        ensures value { result ≡ mean_told self }
        ensures in_range { ForSome result IsHeight }
    {
        if self.count == 0 {
            return None;
        }
        Some(round_div(self.total as i128, self.count as i128) as i32)
    }
}
