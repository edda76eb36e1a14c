ghost use Rattle.std.specs.Prelude.{◌≡◌};
ghost use Rattle.sgm_grid.specs.declared.asc_fault.AscError.TheVariants.{Fault, NoMemory};

use std::alloc::AllocError;

/// What is wrong with bytes that are no grid's text. Of several faults the one that is listed
/// first, and of two of one kind the one nearer to the front. Words are the longest runs of bytes
/// other than space, TAB, CR and LF, and are counted from 0.
#[derive(Clone, Copy, PartialEq, Eq)]
pub enum AscFault {
    /// Of the first twelve words, the one at `at` is missing, or isn't the name or the number that
    /// has to stand there.
    Word { at: usize },
    /// The number at `at`, one of the first twelve words, is out of its range.
    Range { at: usize },
    /// `have` words stand behind the first twelve, and the grid has `need` cells.
    Count { have: usize, need: usize },
    /// The word at `index`, counted from 0 behind the first twelve, is no height and doesn't stand
    /// for an empty cell.
    Height { index: usize },
}

/// Why a grid's text was not read.
#[derive(Clone, Copy, PartialEq, Eq)]
pub enum AscError {
    /// The bytes are no grid's text.
    Fault(AscFault),
    /// Memory ran out.
    NoMemory,
}

impl From<AscFault> for AscError {
    ghost from_gives = { λ fault error. error ≡ Fault fault };

    fn from(fault: AscFault) -> AscError {
        AscError::Fault(fault)
    }
}

impl From<AllocError> for AscError {
    ghost from_gives = { λ _ error. error ≡ NoMemory };

    fn from(_error: AllocError) -> AscError {
        AscError::NoMemory
    }
}
