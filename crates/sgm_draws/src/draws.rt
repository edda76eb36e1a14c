//! The draws.
ghost use Rattle.std.specs.Prelude.{◌≡◌, ◌≤◌};
ghost use Rattle.sgm_draws.specs.declared.limits.TheConstants.{MAX_NUMBERS, MAX_TICKETS};

use crate::rule::{Drawing, Plan};
use crate::view::View;
use atomic_table::Table;
use std::alloc::Global;

/// Numbers that tickets draw: those below a count, each once, whoever draws and in whatever order.
/// A word counts the draws. A ticket that is answered None draws no more, so the word never passes
/// the count and the number of tickets together.
#[derive(Drop)]
pub struct Draws {
    pub(crate) table: Table<(), View, Plan, Drawing, Global>,
    pub(crate) count: u32,
    ghost counted: { table.shared.key.count ≡ count },
    ghost few: { count ≤ MAX_NUMBERS },
    ghost crew: { table.shared.key.passes ≤ MAX_TICKETS },
    ghost words: { table.shared.table_id.words ≡ 1 },
    ghost slots: { table.shared.table_id.slots ≡ 0 },
}
