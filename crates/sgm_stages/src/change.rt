//! The change between two grids, from the words to what is written.
ghost use Rattle.sgm_words.specs.Operands.{of_change};
ghost use Rattle.sgm_stages.specs.Calls.{ChangeCallsFor};
ghost use Rattle.sgm_stages.specs.Moments.{moment};
ghost use Rattle.sgm_stages.specs.RunEnds.{RunEnds};

use crate::Outcome;
use crate::change_pipeline::change_texts;
use crate::delivery::deliver;
use crate::files::name_change;
use crate::gathering::gather_grids;
use sgm_io::{Shelf, Sink};
use sgm_words::ChangeWords;
use std::alloc::Global;

/// Gathers the grids; makes the texts of their change, for which they are judged; names the texts;
/// and delivers them.
pub fn run_change<S: Shelf, O: Sink>(
    alloc: Global,
    operands: &ChangeWords<'_>,
    shelf: &mut S,
    out: &mut O,
) -> Outcome
    ensures { RunEnds (of_change operands.now) (ChangeCallsFor operands.now) result
        (moment S.Shelf O.Sink shelf.old out.old) (moment S.Shelf O.Sink shelf.new out.new) }
{
    let grids = match gather_grids(alloc, shelf, operands) {
        Ok(grids) => grids,
        Err(stop) => return stop.outcome(),
    };
    let texts = match change_texts(alloc, &grids.earlier, &grids.later) {
        Ok(texts) => texts,
        Err(error) => return error.outcome(),
    };
    match name_change(alloc, operands, texts) {
        Ok(delivery) => deliver(shelf, out, &delivery),
        Err(_) => Outcome::NoMemory,
    }
}
