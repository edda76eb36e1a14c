//! What follows from the rule alone. Each function is a law: its clauses speak of any words and
//! tickets that keep the rule, and its body is empty.
ghost use Rattle.std.specs.Prelude.{◌≡◌, ◌≢◌, ℕ, ◌+◌, ◌≤◌};
ghost use mathlib.Core.Option.{some};
ghost use lib.ListN.{get_elem?};
ghost use Rattle.atomic_table.specs.Table.{State};
ghost use Rattle.sgm_draws.specs.Numbers.{times};
ghost use Rattle.sgm_draws.specs.Rules.{Rule, word_of};
ghost use Rattle.sgm_draws.specs.declared.view.View.{View};

/// At each moment between two steps of any threads: no ticket has drawn a number twice, no two have
/// drawn the same, and the word is at most the count and the number of tickets together.
pub fn draws()
    ensures once { (count made : ℕ) (s : State (Unit {0}) View) (at number : ℕ) (v : View)
        → Rule count made s → get_elem? s.views at ≡ some v → times v.drawn number ≤ 1 }
    ensures apart { (count made : ℕ) (s : State (Unit {0}) View) (a b number : ℕ) (v u : View)
        → Rule count made s → get_elem? s.views a ≡ some v → get_elem? s.views b ≡ some u → a ≢ b
        → times v.drawn number + times u.drawn number ≤ 1 }
    ensures bound { (count made : ℕ) (s : State (Unit {0}) View) → Rule count made s
        → word_of s ≤ count + made }
{}
