//! What is merged, from the bytes of a list and a calibration; and the texts of a merged grid.
ghost use Rattle.std.specs.Prelude.{◌≡◌, ◌≤◌, length, Ok, Some, Result, IfOk, MatchResult};
ghost use Rattle.std.specs.Prelude.{option_map, string_bytes};
ghost use Rattle.sgm_grid.specs.declared.grid_spec.GridSpec.{GridSpec};
ghost use Rattle.sgm_list.specs.Names.{names_in, names_reading};
ghost use Rattle.sgm_list.specs.declared.names.NamesFault.{NamesFault};
ghost use Rattle.sgm_calib.specs.Calibration.{Calibration};
ghost use Rattle.sgm_calib.specs.declared.keys.CalibFault.{CalibFault};
ghost use Rattle.sgm_words.specs.Operands.{bytes_of};
ghost use Rattle.sgm_outcome.specs.declared.outcome.Refusal.TheVariants as refusal;
ghost use Rattle.sgm_stages.specs.Judge.{CalibReads, StopsFor};
ghost use Rattle.sgm_stages.specs.Made.{merge_texts_in, plan_in};
ghost use Rattle.sgm_stages.specs.Merging.{grid_asked, merged_text, merged_texts_of, plan_for};
ghost use Rattle.sgm_stages.specs.Refusals.{or_refused};

use crate::Refusal;
use crate::judge::judge_calib;
use crate::made::report;
use crate::stops::TextsError;
use sgm_calib::{Calib, CalibFault, Key};
use sgm_grid::{Grid, GridSpec};
use sgm_ground::tally_ground;
use sgm_list::{MAX_ENTRIES, NamesError, read_names};
use std::alloc::{AllocError, Global};

/// The names that a list asks for, the calibration, and the ranges of its grid.
#[derive(Drop)]
pub struct Plan {
    pub names: Vec<String>,
    pub calib: Calib,
    pub spec: GridSpec,
}

/// All texts of a merge, under no names yet.
#[derive(Drop)]
pub struct MergeTexts {
    pub heights: Vec<u8>,
    pub report: Option<Vec<u8>>,
    pub summary: Vec<u8>,
}

/// The key of a calibration's grid.
const GRID_KEY: Key = Key {
    number: 36,
    index: 0,
};

/// What a list and a calibration ask for by their bytes, or the first refusal; `calib` of None is
/// the plain calibration, and no name of the list may be that of an output under `out`.
pub(crate) fn plan_merge(
    alloc: Global,
    list: &[u8],
    calib: Option<&[u8]>,
    out: &str,
) -> Result<Plan, TextsError>
    ensures plan { (calib_reads : Result Calibration CalibFault)
        → CalibReads (option_map (λ b. b.now) calib.entry) calib_reads
        → MatchResult result
        (λ plan. plan_for (names_reading out.now list.now) calib_reads ≡ Ok (plan_in plan))
        (StopsFor (plan_for (names_reading out.now list.now) calib_reads)) }
    ensures names { IfOk result (λ plan. bytes_of plan.names.items ≡ names_in list.now) }
    ensures few { IfOk result (λ plan. length plan.names.items ≤ MAX_ENTRIES) }
    ensures grid { IfOk result (λ plan. plan.calib.grid ≡ Some plan.spec) }
{
    let names = judge_list(alloc, list, out)?;
    let calib = judge_calib(alloc, calib)?;
    let spec = grid_asked(&calib)?;
    Ok(Plan { names, calib, spec })
}

/// The names of a list.
fn judge_list(alloc: Global, list: &[u8], out: &str) -> Result<Vec<String>, TextsError>
    ensures reading { MatchResult result
        (λ names. or_refused refusal.List (names_reading out.now list.now)
        ≡ Ok (bytes_of names.items))
        (StopsFor (or_refused refusal.List (names_reading out.now list.now))) }
    ensures names { IfOk result (λ names. bytes_of names.items ≡ names_in list.now) }
    ensures few { IfOk result (λ names. length names.items ≤ MAX_ENTRIES) }
{
    match read_names(alloc, list, out) {
        Ok(names) => Ok(names),
        Err(NamesError::Fault(fault)) => Err(TextsError::Refused(Refusal::List(fault))),
        Err(NamesError::NoMemory) => Err(TextsError::NoMemory),
    }
}

/// The ranges of the calibration's grid.
fn grid_asked(calib: &Calib) -> Result<GridSpec, TextsError>
    ensures { MatchResult result
        (λ spec. (grid_asked calib.now.grid ≡ Ok spec) × (calib.now.grid ≡ Some spec))
        (StopsFor (grid_asked calib.now.grid)) }
{
    match calib.grid() {
        Some(spec) => Ok(spec),
        None => Err(TextsError::Refused(Refusal::Calib(CalibFault::Missing(GRID_KEY)))),
    }
}

impl MergeTexts {
    /// The texts of a grid of a calibration's ranges.
    #[tactic(auto, unfolding(crate::specs::Merging::merged_texts_of))]
    pub(crate) fn of(alloc: Global, calib: &Calib, measured: Grid) -> Result<MergeTexts, AllocError>
        requires { calib.now.grid ≡ Some measured.spec }
        ensures { IfOk result (λ made. merge_texts_in made ≡ merged_texts_of calib.now measured) }
    {
        let tallied = tally_ground(alloc, measured, calib.gridding().bridge, calib.regions())?;
        let report = report(alloc, calib.columns(), calib.regions(), &tallied.tallies)?;
        let summary = summary(alloc, &tallied.grid)?.into_bytes();
        let mut heights = Vec::new(alloc);
        tallied.grid.write_asc(&mut heights)?;
        Ok(MergeTexts {
            heights,
            report,
            summary,
        })
    }
}

/// How many of all cells have a height.
#[tactic(auto, unfolding(crate::specs::Merging::merged_text))]
fn summary(alloc: Global, grid: &Grid) -> Result<String, AllocError>
    ensures { IfOk result (λ text. string_bytes text ≡ merged_text grid.now) }
{
    let filled = grid.filled();
    let spec = grid.spec();
    let all = spec.cols as u64 * spec.rows as u64;
    let line = format!(in alloc; "merged {filled} of {all}\n")?;
    Ok(line)
}
