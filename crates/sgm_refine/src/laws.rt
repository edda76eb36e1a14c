//! What follows from the definitions alone. Each function is a law: its clauses speak of every map,
//! and its body is empty.

ghost use Rattle.std.specs.Prelude.{◌≡◌, ◌↔◌, ◌<◌, ◌≤◌, ℕ, List, Option, length, slice_get, ℤ};
ghost use Rattle.std.specs.List.{Contains};
ghost use Rattle.std.specs.List.Sorted.{IsNonDecreasing, IsPermutation};
ghost use Rattle.sgm_base.specs.Values.{Values, IsValues, AtMost};
ghost use Rattle.sgm_refine.specs.Filling.{ranked};
ghost use Rattle.sgm_refine.specs.Refined.{refined};
ghost use Rattle.sgm_base.specs.Refining.{Refining, plain};
ghost use Rattle.sgm_refine.specs.Segments.{IsChain, segment, kept};

/// A pixel is in the segment of another exactly where a chain of linked pixels, of any length, goes
/// from the one to the other.
pub fn chains()
    ensures { (width : ℕ) (entries : List (Option ℕ)) (p q : ℕ) → q < length entries
        → (Contains (segment width entries p) q
        ↔ ((rest : List ℕ) × IsChain width entries p rest q)) }
{}

/// Without a segment to remove and pixels to fill the map stays as it is. A segment has its own
/// pixel, so that holds of a least size of 1 too.
pub fn unrefined()
    ensures least { (map : Values) (least : ℕ) → IsValues map → least ≤ 1 → kept map least ≡ map }
    ensures plain { (map matches left : Values) (first : ℤ) (count : ℕ) → IsValues map
        → refined map matches left first count plain ≡ map }
{}

/// The numbers of a list by their rank are its numbers in order: there is a list of the same
/// numbers that ascends, and the entries of any such list are those that have their ranks.
pub fn ranks()
    ensures ordered { (xs : List ℕ) → (ys : List ℕ) × IsPermutation xs ys × IsNonDecreasing ys
        × ((n : ℕ) → ranked xs n ≡ slice_get ys n) }
    ensures alone { (xs ys : List ℕ) (n : ℕ) → IsPermutation xs ys → IsNonDecreasing ys
        → ranked xs n ≡ slice_get ys n }
{}

/// No value of a refined map is above those of the map.
pub fn bounds()
    ensures kept { (map : Values) (least most : ℕ) → AtMost most map.entries
        → AtMost most (kept map least).entries }
    ensures refined { (map matches left : Values) (first : ℤ) (count most : ℕ) (refine : Refining)
        → AtMost most map.entries
        → AtMost most (refined map matches left first count refine).entries }
{}
