//! What follows from the definitions alone. Each function is a law: its clauses speak of every
//! problem, and its body is empty.

ghost use Rattle.std.specs.Prelude.{◌≡◌, ◌≢◌, ◌↔◌, ℕ, ◌+◌, ◌*◌, ◌<◌, ◌≤◌, Bool, true, false, List};
ghost use Rattle.std.specs.Prelude.{◌++◌, ◌∷◌, [], All, Contains, length, slice_get};
ghost use Rattle.sgm_base.specs.Values.{Values};
ghost use Rattle.sgm_energy.specs.Step.{IsStepped};
ghost use Rattle.sgm_energy.specs.declared.dir.Dir.{Dir};
ghost use Rattle.sgm_energy.specs.declared.dir.TheConstants.Dir.{FRONTS};
ghost use Rattle.sgm_energy.specs.Dirs.{number_of, is_level, front_of, dir_of_front, position_of};
ghost use Rattle.sgm_energy.specs.Dirs.{strip_at};
ghost use Rattle.sgm_energy.specs.Pens.{Penalties};
ghost use Rattle.sgm_energy.specs.Rays.{Pixel, Problem, IsInside, IsRay, guided_problem};
ghost use Rattle.sgm_energy.specs.Rays.{predecessor, ray, before};
ghost use Rattle.sgm_energy.specs.Energies.{sequences, jump, energy, least_of_all, least_ending};
ghost use Rattle.sgm_energy.specs.Energies.{path_value, least_value, sum_done, path_sum, IsWithin};

/// No two directions have one number. A direction that is not level has a front, and no other has
/// the same: [`crate::Dir::FRONTS`] lists them by its number.
pub fn directions()
    ensures numbers { (a b : Dir) → number_of a ≡ number_of b → a ≡ b }
    ensures level { (dir : Dir) → (front_of dir ≡ None) ↔ (is_level dir ≡ true) }
    ensures fronts { (dir : Dir) (front : ℕ)
        → (front_of dir ≡ Some front) ↔ (dir_of_front front ≡ Some dir) }
    ensures listed { (front : ℕ) → slice_get FRONTS front ≡ dir_of_front front }
    ensures six { (dir : Dir) (front : ℕ) → front_of dir ≡ Some front → front < 6 }
{}

/// Each strip stands at one position, and at each position stands one strip.
pub fn positions()
    ensures position { (dir : Dir) (strip strips : ℕ) → strip < strips
        → position_of dir strip strips < strips }
    ensures strip { (dir : Dir) (position strips : ℕ) → position < strips
        → strip_at dir position strips < strips }
    ensures there { (dir : Dir) (strip strips : ℕ) → strip < strips
        → strip_at dir (position_of dir strip strips) strips ≡ strip }
    ensures back { (dir : Dir) (position strips : ℕ) → position < strips
        → position_of dir (strip_at dir position strips) strips ≡ position }
{}

/// The list `ray` is the ray that comes to a pixel of the image, and no other list is. It is the
/// pixel itself where that begins a ray, and else the ray of the pixel before, and then the pixel.
/// Without its last pixel it is `before`.
pub fn rays()
    ensures is_ray { (g : Problem) (dir : Dir) (p : Pixel) → IsInside g p
        → IsRay g dir p (ray g dir p) }
    ensures only { (g : Problem) (dir : Dir) (p : Pixel) (ps qs : List Pixel) → IsRay g dir p ps
        → IsRay g dir p qs → ps ≡ qs }
    ensures first { (g : Problem) (dir : Dir) (p : Pixel) → predecessor g dir p ≡ None
        → ray g dir p ≡ p ∷ [] }
    ensures next { (g : Problem) (dir : Dir) (p q : Pixel) → predecessor g dir p ≡ Some q
        → ray g dir p ≡ ray g dir q ++ p ∷ [] }
    ensures last { (g : Problem) (dir : Dir) (p : Pixel) → before g dir p ++ p ∷ [] ≡ ray g dir p }
{}

/// The sequences are all lists of that length whose numbers are below the count.
pub fn all_sequences()
    ensures { (count n : ℕ) (s : List ℕ)
        → Contains (sequences count n) s ↔ ((length s ≡ n) × All (λ d. d < count) s) }
{}

/// The first pixel of a ray has its own cost as its path value. Every other pixel has its cost and
/// the least that is carried on from the values of the pixel before, less the least of these.
pub fn recurrence()
    ensures first { (g : Problem) (dir : Dir) (p : Pixel) (d : ℕ) → d < g.count
        → predecessor g dir p ≡ None
        → path_value g dir p d ≡ g.cost p d }
    ensures next { (g : Problem) (dir : Dir) (p q : Pixel) (d : ℕ) → d < g.count → g.p1 ≤ g.far q p
        → predecessor g dir p ≡ Some q
        → IsStepped (path_value g dir q) g.count g.p1 (g.far q p) (least_value g dir q)
        (g.cost p d) d (path_value g dir p d) }
{}

/// The least energy of the sequences along a ray that end in an index. Along one pixel it is the
/// index's cost. One pixel further, it is the least that an index at the pixel before has, with the
/// cost and the penalty of the change: none gives less, and one gives it. The energy of each
/// sequence grows by just these two.
pub fn least_energies()
    ensures first { (g : Problem) (p : Pixel) (d : ℕ) → d < g.count
        → least_ending g (p ∷ []) d ≡ g.cost p d }
    ensures low { (g : Problem) (ps : List Pixel) (q p : Pixel) (a d : ℕ) → a < g.count
        → d < g.count
        → least_ending g ((ps ++ q ∷ []) ++ p ∷ []) d
        ≤ least_ending g (ps ++ q ∷ []) a + (g.cost p d + jump g q p a d) }
    ensures reached { (g : Problem) (ps : List Pixel) (q p : Pixel) (d : ℕ) → d < g.count
        → (a : ℕ) × (a < g.count)
        × (least_ending g (ps ++ q ∷ []) a + (g.cost p d + jump g q p a d)
        ≤ least_ending g ((ps ++ q ∷ []) ++ p ∷ []) d) }
    ensures each { (g : Problem) (ps : List Pixel) (s : List ℕ) (q p : Pixel) (a d : ℕ)
        → length s ≡ length ps
        → energy g ((ps ++ q ∷ []) ++ p ∷ []) ((s ++ a ∷ []) ++ d ∷ [])
        ≡ energy g (ps ++ q ∷ []) (s ++ a ∷ []) + (g.cost p d + jump g q p a d) }
{}

/// No path value is below 0: what is subtracted is never greater. None is above the greatest cost
/// and the greatest penalty together. Under penalties that are fixed or follow a guide the greatest
/// is p2.
pub fn bounds()
    ensures low { (g : Problem) (dir : Dir) (p : Pixel) (d : ℕ) → d < g.count
        → least_of_all g (before g dir p) ≤ least_ending g (ray g dir p) d }
    ensures high { (g : Problem) (dir : Dir) (p : Pixel) (d most top : ℕ) → d < g.count
        → IsInside g p → IsWithin g most top
        → path_value g dir p d ≤ most + top }
    ensures guided { (width height count most : ℕ) (cost : Pixel → ℕ
        → ℕ) (penalties : Penalties) (guide : Values) → penalties.p1 ≤ penalties.p2
        → ((p : Pixel) (d : ℕ) → p.x < width → p.y < height → d < count → cost p d ≤ most)
        → IsWithin (guided_problem width height count cost penalties guide) most penalties.p2 }
{}

/// The sum over the directions that are done: one direction more adds its path value, all are the
/// whole sum, and there is room for each that is not done. With costs up to 62 and penalties up to
/// 4000 the greatest sum is 8 * (62 + 4000) = 32496, which fits 16 bits.
pub fn sums()
    ensures none { (g : Problem) (p : Pixel) (d : ℕ) → sum_done (λ _. false) g p d ≡ 0 }
    ensures more { (done now : Dir → Bool) (dir : Dir) (g : Problem) (p : Pixel) (d : ℕ)
        → done dir ≡ false → now dir ≡ true → ((other : Dir) → other ≢ dir → now other ≡ done other)
        → sum_done now g p d ≡ sum_done done g p d + path_value g dir p d }
    ensures all { (done : Dir → Bool) (g : Problem) (p : Pixel) (d : ℕ)
        → ((dir : Dir) → done dir ≡ true) → sum_done done g p d ≡ path_sum g p d }
    ensures room { (done : Dir → Bool) (dir : Dir) (g : Problem) (p : Pixel) (d most top : ℕ)
        → d < g.count → IsInside g p → IsWithin g most top
        → done dir ≡ false → sum_done done g p d ≤ 7 * (most + top) }
    ensures bound { (done : Dir → Bool) (g : Problem) (p : Pixel) (d most top : ℕ) → d < g.count
        → IsInside g p → IsWithin g most top
        → sum_done done g p d ≤ 8 * (most + top) }
    ensures whole { (g : Problem) (p : Pixel) (d most top : ℕ) → d < g.count → IsInside g p
        → IsWithin g most top
        → path_sum g p d ≤ 8 * (most + top) }
{}
