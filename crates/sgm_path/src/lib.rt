//! Rows of path values, in a direction that stays in the row and in one that comes from another.
//! A row of a volume is a slice in which the value of the column x and the index d stands at
//! `x * count + d`.
#![tactic(auto)]

mod append;
mod pair;
mod pixel;
mod row_pass;
mod run;
mod step;
mod sweep;

pub use append::append_level_sums;
pub use pair::pass_two;
pub use row_pass::RowPass;
pub use run::{level_sums, run_row};
pub use step::{begin_row, pass_row, step_row};
