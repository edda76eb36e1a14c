//! What follows from the definitions alone. Each function is a law: its clauses speak of every
//! state and every list of events, and its body is empty.

ghost use Rattle.std.specs.Prelude.{◌≡◌, ℕ, List};
ghost use Rattle.sgm_handover.specs.declared.event.Event.{Event};
ghost use Rattle.sgm_handover.specs.Handover.{Handover, fresh, Sound};
ghost use Rattle.sgm_handover.specs.Events.{Legal, after, run, AllLegal, FirstIllegal};
ghost use Rattle.sgm_handover.specs.Events.{TakenInOrder, GoesOn};

/// The state before the first event is sound, and each legal event keeps it so.
pub fn soundness()
    ensures fresh { (strips : ℕ) → Sound (fresh strips) }
    ensures kept { (m : Handover) (event : Event) → Legal m event → Sound m
        → Sound (after m event) }
{}

/// After each list of legal events the state is sound, and each front was taken at the strips of
/// the positions 0, 1, 2 .. in order: as many as it has passed, and one more where it is away. In a
/// sound state in which no strip is held, each front can go on.
pub fn runs()
    ensures sound { (strips : ℕ) (events : List Event) → AllLegal (fresh strips) events
        → Sound (run (fresh strips) events) }
    ensures in_order { (strips : ℕ) (events : List Event) → AllLegal (fresh strips) events
        → TakenInOrder (run (fresh strips) events) events }
    ensures goes_on { (m : Handover) → Sound m → GoesOn m }
{}

/// No two places of a list have the first event that is not legal, and where one has it not all are
/// legal.
pub fn refusals()
    ensures one { (m : Handover) (events : List Event) (a b : ℕ) → FirstIllegal m events a
        → FirstIllegal m events b → a ≡ b }
    ensures not_all { (m : Handover) (events : List Event) (at : ℕ) → FirstIllegal m events at
        → ¬ AllLegal m events }
{}
