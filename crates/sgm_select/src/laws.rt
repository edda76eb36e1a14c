//! What follows from the definitions alone. Each function is a law: its clauses speak of every
//! problem, and its body is empty.

ghost use Rattle.std.specs.Prelude.{◌≡◌, ℕ, ◌-◌, ◌*◌, ◌<◌, ◌≤◌, List, Option, ℤ, pos, ◌+ℤ◌};
ghost use Rattle.sgm_base.specs.Ranges.{Within};
ghost use Rattle.sgm_base.specs.Values.{Values, row_of};
ghost use Rattle.sgm_energy.specs.Rays.{Pixel, pixel_at, Problem};
ghost use Rattle.sgm_energy.specs.Energies.{path_sum};
ghost use Rattle.sgm_energy.specs.Rows.{HoldsRow};
ghost use Rattle.sgm_select.specs.Selection.{base, matched, disparity, in_sixteenths, offset};
ghost use Rattle.sgm_select.specs.Rows.{base_in, matched_in, checked_in, HoldsBases, HoldsMatches};

/// Over a row that holds the sums of a problem, the choices in the row are those of its pixels.
pub fn choices()
    ensures base { (g : Problem) (y x : ℕ) (sums : List ℕ) → HoldsRow g y (path_sum g) sums
        → x < g.width
        → base_in sums g.count x ≡ base g (pixel_at x y) }
    ensures matched { (g : Problem) (first : ℤ) (y q : ℕ) (sums : List ℕ)
        → HoldsRow g y (path_sum g) sums → q < g.width
        → matched_in sums g.width first g.count q ≡ matched g first q y }
{}

/// Over rows that hold the sums and the indices of both images, and the rows of the two planes, the
/// check in the row gives the disparity of each pixel.
pub fn disparities()
    ensures { (g : Problem) (left right : Values) (first : ℤ) (y x : ℕ) (sums bases : List ℕ)
        (matches : List (Option ℕ))
        → left.width ≡ g.width → left.height ≡ g.height → right.width ≡ g.width
        → right.height ≡ g.height
        → HoldsRow g y (path_sum g) sums → HoldsBases g y bases → HoldsMatches g first y matches
        → 0 < g.count → x < g.width → y < g.height
        → checked_in sums g.count bases matches (row_of left y) (row_of right y) first x
        ≡ disparity g left right first (pixel_at x y) }
{}

/// An offset is at most 8 sixteenths in either direction. So a disparity is what its definition
/// says, the index in sixteenths and the offset, although a value is never negative, and it lies
/// among those of all indices.
pub fn offsets()
    ensures near { (g : Problem) (p : Pixel) → 0 < g.count
        → Within 8 (offset (path_sum g p) g.count (base g p)) }
    ensures whole { (g : Problem) (p : Pixel) → 0 < g.count
        → pos (in_sixteenths (path_sum g p) g.count (base g p))
        ≡ pos (16 * base g p) +ℤ offset (path_sum g p) g.count (base g p) }
    ensures most { (g : Problem) (p : Pixel) → 0 < g.count
        → in_sixteenths (path_sum g p) g.count (base g p) ≤ 16 * (g.count - 1) }
{}
