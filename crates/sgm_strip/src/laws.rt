//! What follows from the definitions alone. Each function is a law, and its body is empty.

ghost use Rattle.std.specs.Prelude.{◌≡◌, ℕ, ◌+◌, ◌<◌, ◌≤◌, Bool, List};
ghost use Rattle.sgm_energy.specs.Rays.{Pixel, Problem};
ghost use Rattle.sgm_energy.specs.Energies.{path_sum, sum_done};
ghost use Rattle.sgm_strip.specs.Cuts.{CutParts, IsCut, first_row};
ghost use Rattle.sgm_strip.specs.Parcels.{IsComplete, is_done};

/// The strips are all rows of the image, one strip after the other: the first begins at the top,
/// each has a row, and where the last ends the image ends. Each row lies in one strip.
pub fn strips()
    ensures top { (cut : CutParts) → IsCut cut → first_row cut 0 ≡ 0 }
    ensures some { (cut : CutParts) (strip : ℕ) → IsCut cut
        → first_row cut strip < first_row cut (strip + 1) }
    ensures end { (cut : CutParts) → IsCut cut → first_row cut cut.strips ≡ cut.height }
    ensures each { (cut : CutParts) (y : ℕ) → IsCut cut → y < cut.height
        → (strip : ℕ) × (strip < cut.strips) × (first_row cut strip ≤ y)
        × (y < first_row cut (strip + 1)) }
{}

/// Where all directions are done the sums are those of all eight.
pub fn complete_sums()
    ensures { (done : List Bool) (g : Problem) (p : Pixel) (d : ℕ) → IsComplete done
        → sum_done (is_done done) g p d ≡ path_sum g p d }
{}
