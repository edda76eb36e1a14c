//! What follows from the definitions alone. The function is a law: its clauses speak of every
//! problem, and its body is empty.

ghost use Rattle.std.specs.Prelude.{◌≡◌, ℕ, ◌+◌, ◌<◌, true, List, Contains, length, sum_by};
ghost use Rattle.sgm_energy.specs.declared.dir.Dir.{Dir};
ghost use Rattle.sgm_energy.specs.Rays.{Pixel, Problem, ray};
ghost use Rattle.sgm_energy.specs.Energies.{sequences, ends_in, energy, least_ending};
ghost use Rattle.sgm_trace.specs.declared.traced.Step.{Step};
ghost use Rattle.sgm_trace.specs.Best.{attaining, best, not_after, steps_of};

/// Each index at a pixel has a certificate: the best sequence is one of the sequences along the
/// ray, it ends in the index, it has the least energy of those that do, and none that has it too
/// comes before it. The costs and penalties of the steps of a sequence add up to its energy.
pub fn certificates()
    ensures member { (g : Problem) (dir : Dir) (p : Pixel) (d : ℕ) → d < g.count
        → Contains (sequences g.count (length (ray g dir p))) (best g (ray g dir p) d) }
    ensures ends { (g : Problem) (dir : Dir) (p : Pixel) (d : ℕ) → d < g.count
        → ends_in d (best g (ray g dir p) d) ≡ true }
    ensures energy { (g : Problem) (dir : Dir) (p : Pixel) (d : ℕ) → d < g.count
        → energy g (ray g dir p) (best g (ray g dir p) d) ≡ least_ending g (ray g dir p) d }
    ensures first { (g : Problem) (dir : Dir) (p : Pixel) (d : ℕ) → d < g.count
        → (t : List ℕ) → Contains (attaining g (ray g dir p) d) t
        → not_after (best g (ray g dir p) d) t ≡ true }
    ensures adds { (g : Problem) (ps : List Pixel) (s : List ℕ)
        → sum_by (λ (step : Step). step.cost + step.jump) (steps_of g ps s) ≡ energy g ps s }
{}
