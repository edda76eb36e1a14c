//! What follows from the definitions alone. Each function is a law: its clauses speak of any words,
//! slots and views, and its body is empty.

ghost use Rattle.std.specs.Prelude.{◌≡◌, ℕ, ◌*◌, ◌<◌, ◌≤◌, false, Some, slice_set};
ghost use mathlib.Core.Option.{some};
ghost use lib.ListN.{get_elem?};
ghost use Rattle.atomic_table.specs.Table.{State};
ghost use Rattle.sgm_energy.specs.declared.dir.Dir.{Dir};
ghost use Rattle.sgm_energy.specs.Dirs.{is_level};
ghost use Rattle.sgm_handover.specs.Handover.{Handover, Sound};
ghost use Rattle.sgm_handover.specs.Events.{Legal, after};
ghost use Rattle.sgm_handover.specs.declared.event.Event.{Event};
ghost use Rattle.sgm_board.specs.declared.view.About.{About};
ghost use Rattle.sgm_board.specs.declared.view.View.{View};
ghost use Rattle.sgm_board.specs.declared.slot.Slot.{Slot};
ghost use Rattle.sgm_board.specs.Words.{dir_word};
ghost use Rattle.sgm_board.specs.Views.{after_look, after_read, after_try, shows_done};
ghost use Rattle.sgm_board.specs.Shows.{Shows, Rule};
ghost use Rattle.sgm_board.specs.Events.{Makes, IsAt, found, with_view};

/// Each step that changes a word is one event of the hand-over machine: it is legal in the state
/// that the board shows before it, and the board shows the state after the event then.
pub fn events()
    ensures legal { (about : About) (made : ℕ) (s t : State Slot View) (m : Handover) (at : ℕ)
        (v : View)
        (event : Event)
        → Shows about made s m → IsAt s at v → Makes about m s at v event t → Legal m event }
    ensures after { (about : About) (made : ℕ) (s t : State Slot View) (m : Handover) (at : ℕ)
        (v : View)
        (event : Event)
        → Shows about made s m → IsAt s at v → Makes about m s at v event t
        → Shows about made t (after m event) }
{}

/// A look that leaves the word, alone or as a read after a claim or as a try, leaves the state that
/// the board shows.
pub fn looks()
    ensures looks { (about : About) (made : ℕ) (s : State Slot View) (m : Handover) (at word : ℕ)
        (v : View)
        → Shows about made s m → IsAt s at v
        → Shows about made (with_view s at (after_look v word (found s word))) m }
    ensures reads { (about : About) (made : ℕ) (s : State Slot View) (m : Handover) (at word : ℕ)
        (v : View)
        → Rule about made s → IsAt s at v
        → Rule about made (with_view s at (after_read (after_look v word (found s word)) word)) }
    ensures tries { (about : About) (made : ℕ) (s : State Slot View) (m : Handover)
        (at word strip : ℕ) (dir : Dir)
        (v : View)
        → Shows about made s m → IsAt s at v
        → Shows about made
        (with_view s at (after_try (after_look v word (found s word)) strip dir)) m }
{}

/// By its rule the table of a board shows a state at each moment between two steps, and that is
/// sound.
pub fn soundness()
    ensures shown { (about : About) (made : ℕ) (s : State Slot View) → Rule about made s
        → (m : Handover)
        × Shows about made s m }
    ensures sound { (about : About) (made : ℕ) (s : State Slot View) (m : Handover)
        → Shows about made s m → Sound m }
{}

/// No two passes show one strip or one front, and a pass doesn't show the direction done whose
/// front it has. The word of a direction is at most twice the number of strips.
pub fn holders()
    ensures strips { (about : About) (made : ℕ) (s : State Slot View) (m : Handover) (a b strip : ℕ)
        (v u : View)
        → Shows about made s m → IsAt s a v → IsAt s b u → v.strip ≡ Some strip
        → u.strip ≡ Some strip → a ≡ b }
    ensures fronts { (about : About) (made : ℕ) (s : State Slot View) (m : Handover) (a b : ℕ)
        (dir : Dir) (v u : View)
        → Shows about made s m → IsAt s a v → IsAt s b u → v.front ≡ Some dir → u.front ≡ Some dir
        → a ≡ b }
    ensures left { (about : About) (made : ℕ) (s : State Slot View) (m : Handover) (at : ℕ)
        (dir : Dir) (v : View)
        → Shows about made s m → IsAt s at v → v.front ≡ Some dir → shows_done v dir ≡ false }
    ensures bound { (about : About) (made : ℕ) (s : State Slot View) (m : Handover) (dir : Dir)
        → Shows about made s m → is_level dir ≡ false
        → found s (dir_word dir) ≤ 2 * about.cut.strips }
{}
