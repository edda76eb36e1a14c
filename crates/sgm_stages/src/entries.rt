//! The entries of a list: each is fetched, judged and added before the next.
ghost use Rattle.std.specs.Prelude.{◌≡◌, ◌+◌, ◌≤◌, ◌<◌, length, Ok, true};
ghost use Rattle.std.specs.Prelude.{IsTrue, IfOk, MatchResult};
ghost use Rattle.sgm_grid.specs.Asc.{asc_reading};
ghost use Rattle.sgm_grid.specs.Cells.{IsGridSpec};
ghost use Rattle.sgm_merge.specs.Fits.{fits};
ghost use Rattle.sgm_merge.specs.declared.limits.TheConstants.{MAX_ENTRIES};
ghost use Rattle.sgm_words.specs.Operands.{FileNames, bytes_of, IsInputName};
ghost use Rattle.sgm_words.specs.declared.files.Input.TheVariants as input;
ghost use Rattle.sgm_outcome.specs.declared.outcome.Refusal.TheVariants as refusal;
ghost use Rattle.sgm_stages.specs.Ends.{CountsShow, StageCounts};
ghost use Rattle.sgm_stages.specs.Entries.{AddsEntries, AddsEntry, AddsOne, EndsEarly, HaveEntries};
ghost use Rattle.sgm_stages.specs.Judge.{StopsFor};
ghost use Rattle.sgm_stages.specs.Merging.{cells_refusal, entry_for};
ghost use Rattle.sgm_stages.specs.Moments.{Keeps};
ghost use Rattle.sgm_stages.specs.Refusals.{or_refused, unless};

use crate::gathering::fetch_input;
use crate::judge::judge_grid;
use crate::stops::TextsError;
use crate::{Input, Outcome, Refusal};
use sgm_grid::{Grid, GridSpec};
use sgm_io::Shelf;
use sgm_merge::{Merge, fits};
use std::alloc::Global;

/// Fetches the grids with these names, in their order, and adds each to the merge, until one can't
/// be read or is refused. No grid is kept.
pub(crate) fn add_entries<S: Shelf>(
    alloc: Global,
    shelf: &mut S,
    names: &[String],
    merge: &mut Merge,
) -> Result<(), Outcome>
    requires room { merge.old.entries + length names.now ≤ MAX_ENTRIES }
    ensures keeps { Keeps S.Shelf shelf.old shelf.new }
    ensures entries { IsTrue S.tells
        → AddsEntries merge.old 0 (bytes_of names.now) (S.held shelf.old) result merge.new }
    ensures ranges { merge.new.spec ≡ merge.old.spec }
    ensures end { EndsEarly result }
    ensures counts { (known : FileNames) → HaveEntries (bytes_of names.now) known
        → StageCounts (CountsShow known) result S.Shelf shelf.old shelf.new }
{
    for number in 0..names.len() {
        match add_entry(alloc, shelf, number as u32, names[number].as_str(), merge) {
            Ok(()) => {}
            Err(outcome) => return Err(outcome),
        }
    }
    Ok(())
}

/// Fetches the grid with this number and this name, and adds it to the merge.
fn add_entry<S: Shelf>(
    alloc: Global,
    shelf: &mut S,
    number: u32,
    name: &str,
    merge: &mut Merge,
) -> Result<(), Outcome>
    requires room { merge.old.entries < MAX_ENTRIES }
    ensures keeps { Keeps S.Shelf shelf.old shelf.new }
    ensures entry { IsTrue S.tells
        → AddsEntry merge.old number (S.held shelf.old name.now) result merge.new }
    ensures one { AddsOne merge.old result merge.new }
    ensures end { EndsEarly result }
    ensures counts { (known : FileNames) → IsInputName known (input.Grid number) name.now
        → StageCounts (CountsShow known) result S.Shelf shelf.old shelf.new }
{
    let bytes = match fetch_input(alloc, shelf, Input::Grid(number), name) {
        Ok(bytes) => bytes,
        Err(stop) => return Err(stop.outcome()),
    };
    match judge_entry(alloc, merge.spec(), number, &bytes) {
        Ok(entry) => {
            merge.add(&entry);
            Ok(())
        }
        Err(error) => Err(error.outcome()),
    }
}

/// The grid with this number, or its refusal.
fn judge_entry(alloc: Global, spec: GridSpec, number: u32, bytes: &[u8]) -> Result<Grid, TextsError>
    requires { IsGridSpec spec }
    ensures reading { MatchResult result
        (λ entry. entry_for spec number (asc_reading bytes.now) ≡ Ok entry)
        (StopsFor (entry_for spec number (asc_reading bytes.now))) }
    ensures fits { IfOk result (λ entry. fits spec entry.spec ≡ true) }
{
    let entry = judge_grid(alloc, Input::Grid(number), bytes)?;
    if !fits(spec, entry.spec()) {
        return Err(TextsError::Refused(Refusal::NotOnCells { grid: number }));
    }
    Ok(entry)
}
