ghost use Rattle.std.specs.Prelude.{◌≡◌};
ghost use Rattle.sgm_series.specs.Status.{status_of};

use crate::SeriesUsage;
use sgm_app::{Input, Output};
use sgm_list::ListFault;

/// How a series ended. Entries are counted from 0.
#[derive(Clone, Copy, PartialEq, Eq)]
pub enum SeriesOutcome {
    Done,
    Usage(SeriesUsage),
    RefusedList(ListFault),
    /// So many entries are refused, and all others are written.
    SomeRefused { entries: u32 },
    ListUnread,
    ReadFault { entry: u32, input: Input },
    WriteFault { entry: u32, output: Output },
    NoMemory,
}

impl SeriesOutcome {
    /// The status that the program ends with: 0, 2, 3, 3, 4, 4, 5, 6 in the order of the variants.
    pub fn status(&self) -> u8
        ensures { result ≡ status_of self.now }
    {
        match self {
            SeriesOutcome::Done => 0,
            SeriesOutcome::Usage(_) => 2,
            SeriesOutcome::RefusedList(_) | SeriesOutcome::SomeRefused { entries: _ } => 3,
            SeriesOutcome::ListUnread | SeriesOutcome::ReadFault { entry: _, input: _ } => 4,
            SeriesOutcome::WriteFault {
                entry: _,
                output: _,
            } => 5,
            SeriesOutcome::NoMemory => 6,
        }
    }
}
