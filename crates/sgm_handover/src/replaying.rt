ghost use Rattle.std.specs.Prelude.{◌≡◌, ℕ, ◌≤◌, IfOk};
ghost use Rattle.sgm_handover.specs.Handover.{fresh, Sound};
ghost use Rattle.sgm_handover.specs.Events.{AllLegal, FirstIllegal, GoesOn, TakenInOrder, run};
ghost use Rattle.sgm_handover.specs.Machines.{state_of};
ghost use Rattle.sgm_handover.specs.declared.replaying.ReplayError.TheVariants as error;

use crate::{Event, Illegal, Machine};
use sgm_base::MAX_STRIPS;
use std::alloc::{AllocError, Global};

/// Why a list of events has no machine: the first event that is not legal, by its place from 0, or
/// that there is no memory.
#[derive(Clone, Copy, Debug, PartialEq, Eq)]
pub enum ReplayError {
    Illegal { at: usize },
    NoMemory,
}

impl From<AllocError> for ReplayError {
    ghost use Rattle.std.specs.Prelude.{◌≡◌};
    ghost use Rattle.sgm_handover.specs.declared.replaying.ReplayError.TheVariants.{NoMemory};

    ghost from_gives = { λ _ error. error ≡ NoMemory };

    fn from(_: AllocError) -> ReplayError {
        ReplayError::NoMemory
    }
}

/// The machine after these events: Ok exactly where each is legal in the state that the earlier
/// ones leave, otherwise the place of the first that is not. `strips` is from 1 to [`MAX_STRIPS`].
pub fn replay(alloc: Global, strips: u32, events: &[Event]) -> Result<Machine, ReplayError>
    requires { (1 ≤ strips) × (strips ≤ MAX_STRIPS) }
    ensures legal { IfOk result (λ _. AllLegal (fresh strips) events.now) }
    ensures state { IfOk result (λ machine. state_of machine ≡ run (fresh strips) events.now) }
    ensures illegal { (at : ℕ) → result ≡ Err (error.Illegal at)
        → FirstIllegal (fresh strips) events.now at }

    // What follows from the events, whatever they are.
    ensures sound { IfOk result (λ machine. Sound (state_of machine)) }
    ensures in_order { IfOk result (λ machine. TakenInOrder (state_of machine) events.now) }
    ensures goes_on { IfOk result (λ machine. GoesOn (state_of machine)) }
{
    let mut machine = Machine::new(alloc, strips)?;
    for (at, event) in events.iter().enumerate() {
        match machine.apply(*event) {
            Ok(()) => {}
            Err(Illegal) => return Err(ReplayError::Illegal { at }),
        }
    }
    Ok(machine)
}
