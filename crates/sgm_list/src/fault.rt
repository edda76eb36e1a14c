ghost use Rattle.std.specs.Prelude.{◌≡◌};
ghost use Rattle.sgm_list.specs.declared.fault.ListError.TheVariants.{Fault, NoMemory};

use std::alloc::AllocError;

/// What is wrong with a list. Of several faults the one that is listed first.
#[derive(Clone, Copy, PartialEq, Eq)]
pub enum ListFault {
    /// More bytes than [`sgm_base::MAX_LIST_BYTES`].
    TooLong,
    /// The bytes aren't UTF-8.
    NotText,
    /// The first line that has words, but not four. Lines count from 1.
    Line { number: usize },
    /// More entries than [`crate::MAX_ENTRIES`].
    TooMany { entries: usize },
    /// The first entry whose OUT is that of an earlier one, or one of whose inputs is an output of
    /// an entry, or one of whose outputs is the list itself. Entries count from 0.
    Clash { entry: usize },
}

/// Why a list was not read.
#[derive(Clone, Copy, PartialEq, Eq)]
pub enum ListError {
    Fault(ListFault),
    /// Memory ran out.
    NoMemory,
}

impl From<ListFault> for ListError {
    ghost from_gives = { λ fault error. error ≡ Fault fault };

    fn from(fault: ListFault) -> ListError {
        ListError::Fault(fault)
    }
}

impl From<AllocError> for ListError {
    ghost from_gives = { λ _ error. error ≡ NoMemory };

    fn from(_error: AllocError) -> ListError {
        ListError::NoMemory
    }
}
