//! The words of the command line: the commands, their operands and options, the first fault of the
//! words, and the names of what a run reads and writes.
#![tactic(auto)]

mod commands;
mod directions;
mod faults;
mod files;
mod numbers;
mod operands;
mod option_table;
mod options;
mod read;
mod settings;
mod usage;

pub use files::{Input, Output};
pub use operands::{ChangeWords, MergeWords, OperandWords, is_plain};
pub use options::Options;
pub use read::read_words;
pub use usage::UsageFault;
