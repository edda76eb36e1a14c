//! A merge of many grids, from the words to what is written.
ghost use Rattle.std.specs.Prelude.{◌≡◌, ◌≤◌, length, Some, IsTrue, option_map};
ghost use Rattle.sgm_merge.specs.declared.limits.TheConstants.{MAX_ENTRIES};
ghost use Rattle.sgm_words.specs.Operands.{FileNames, bytes_of, of_merge};
ghost use Rattle.sgm_stages.specs.Calls.{MergeCallsFor};
ghost use Rattle.sgm_stages.specs.Ends.{CountsShow, StageCounts, names_listed, told_by};
ghost use Rattle.sgm_stages.specs.Entries.{EndsEarly, HaveEntries, MakesTexts};
ghost use Rattle.sgm_stages.specs.Made.{plan_in};
ghost use Rattle.sgm_stages.specs.Moments.{Keeps, moment};
ghost use Rattle.sgm_stages.specs.RunEnds.{RunEnds};

use crate::Outcome;
use crate::delivery::deliver;
use crate::entries::add_entries;
use crate::files::name_merge;
use crate::gathering::gather_merge;
use crate::merge_plan::{MergeTexts, Plan, plan_merge};
use sgm_io::{Shelf, Sink};
use sgm_merge::Merge;
use sgm_words::MergeWords;
use std::alloc::Global;

/// Gathers the list and the calibration; judges them; fetches, judges and adds each entry, one of
/// which is held at a time; makes the texts of the merged grid; names the texts; and delivers them.
pub fn run_merge<S: Shelf, O: Sink>(
    alloc: Global,
    operands: &MergeWords<'_>,
    shelf: &mut S,
    out: &mut O,
) -> Outcome
    ensures { RunEnds
        (of_merge operands.now
        (option_map (names_listed operands.now) (told_by S.tells (S.held shelf.old))))
        (MergeCallsFor operands.now) result
        (moment S.Shelf O.Sink shelf.old out.old) (moment S.Shelf O.Sink shelf.new out.new) }
{
    let inputs = match gather_merge(alloc, shelf, operands) {
        Ok(inputs) => inputs,
        Err(stop) => return stop.outcome(),
    };
    let plan = match plan_merge(alloc, inputs.list(), inputs.calib(), operands.out()) {
        Ok(plan) => plan,
        Err(error) => return error.outcome(),
    };
    let texts = match merge_entries(alloc, shelf, &plan) {
        Ok(texts) => texts,
        Err(outcome) => return outcome,
    };
    match name_merge(alloc, operands, texts) {
        Ok(delivery) => deliver(shelf, out, &delivery),
        Err(_) => Outcome::NoMemory,
    }
}

/// The texts of the entries of a plan, or the outcome of a run that ends before they are made.
fn merge_entries<S: Shelf>(alloc: Global, shelf: &mut S, plan: &Plan) -> Result<MergeTexts, Outcome>
    requires few { length plan.now.names.items ≤ MAX_ENTRIES }
    requires grid { plan.now.calib.grid ≡ Some plan.now.spec }
    ensures keeps { Keeps S.Shelf shelf.old shelf.new }
    ensures texts { IsTrue S.tells → MakesTexts (plan_in plan.now) (S.held shelf.old) result }
    ensures end { EndsEarly result }
    ensures counts { (known : FileNames) → HaveEntries (bytes_of plan.now.names.items) known
        → StageCounts (CountsShow known) result S.Shelf shelf.old shelf.new }
{
    // Known from here on: that the ranges of its grid are kept.
    let _spec = plan.calib.grid();
    let mut merge = match Merge::make(alloc, plan.spec, plan.calib.gridding().keep) {
        Ok(merge) => merge,
        Err(_) => return Err(Outcome::NoMemory),
    };
    match add_entries(alloc, shelf, &plan.names, &mut merge) {
        Ok(()) => {}
        Err(outcome) => return Err(outcome),
    }
    let grid = match merge.grid(alloc) {
        Ok(grid) => grid,
        Err(_) => return Err(Outcome::NoMemory),
    };
    match MergeTexts::of(alloc, &plan.calib, grid) {
        Ok(texts) => Ok(texts),
        Err(_) => Err(Outcome::NoMemory),
    }
}
