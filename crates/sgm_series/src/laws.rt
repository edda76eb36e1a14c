//! What follows from the definitions alone. Each function is a law, and its body is empty.
ghost use Rattle.std.specs.Prelude.{◌≡◌, ◌↔◌, ℕ, List, None, Some, IsTrue, slice_get};
ghost use Rattle.sgm_io.specs.Held.{Held};
ghost use Rattle.sgm_list.specs.Entries.{EntryNames, entries_of};
ghost use Rattle.sgm_list.specs.Faults.{list_fault};
ghost use Rattle.sgm_app.specs.Calls.{CallsFor};
ghost use Rattle.sgm_stages.specs.Verdict.{Verdict};
ghost use Rattle.sgm_series.specs.EntryWords.{match_words};
ghost use Rattle.sgm_series.specs.Plans.{Plan, EntryCallsFor, SeriesCallsFor};

use sgm_io::Shelf;

/// The words call for exactly one plan over what a shelf holds that tells it: the same entries, and
/// the same verdict for each of them.
pub fn one_plan<S: Shelf>()
    ensures some { IsTrue S.tells → (words : List (List ℕ)) (shelf : S)
        → (plan : Plan) × SeriesCallsFor words (S.held shelf) plan }
    ensures only { (words : List (List ℕ)) (held : Held) (one other : Plan)
        → SeriesCallsFor words held one → SeriesCallsFor words held other → one ≡ other }
{}

/// The verdict of an entry of a list without a fault is that of the words `match LEFT RIGHT CALIB
/// OUT`.
pub fn entry_verdict()
    ensures { (list bytes : List ℕ) (place : ℕ) (entry : EntryNames) (held : Held) (v : Verdict)
        → list_fault list bytes ≡ None → slice_get (entries_of bytes) place ≡ Some entry
        → EntryCallsFor entry held v ↔ CallsFor (match_words entry) held v }
{}
