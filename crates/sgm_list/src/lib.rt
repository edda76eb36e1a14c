//! The list of a series of pairs, and that of the grids of a merge: the entries, or the first
//! fault.
#![tactic(auto)]

mod clash;
mod count;
mod entry;
mod fault;
mod limits;
mod line;
mod names;
mod read;

pub use entry::Entry;
pub use fault::{ListError, ListFault};
pub use limits::MAX_ENTRIES;
pub use line::fault_line;
pub use names::{NamesError, NamesFault, read_names};
pub use read::read_list;
