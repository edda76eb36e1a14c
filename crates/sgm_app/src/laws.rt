//! What follows from the definitions alone. The function is a law, and its body is empty.
ghost use Rattle.std.specs.Prelude.{◌≡◌, ℕ, List, IsTrue};
ghost use Rattle.sgm_io.specs.Held.{Held};
ghost use Rattle.sgm_app.specs.Calls.{CallsFor};
ghost use Rattle.sgm_stages.specs.Verdict.{Verdict};

use sgm_io::Shelf;

/// The words call for exactly one verdict over what a shelf holds that tells it.
pub fn one_verdict<S: Shelf>()
    ensures some { IsTrue S.tells → (words : List (List ℕ)) (shelf : S)
        → (v : Verdict) × CallsFor words (S.held shelf) v }
    ensures only { (words : List (List ℕ)) (held : Held) (one other : Verdict)
        → CallsFor words held one → CallsFor words held other → one ≡ other }
{}
