//! From the bytes of two grids to the texts of what changed between them.
ghost use Rattle.std.specs.Prelude.{◌≡◌, Ok, IfOk, MatchResult, string_bytes};
ghost use Rattle.sgm_grid.specs.Asc.{asc_reading};
ghost use Rattle.sgm_grid.specs.Cells.{IsGridSpec};
ghost use Rattle.sgm_outcome.specs.declared.outcome.Refusal.TheVariants as refusal;
ghost use Rattle.sgm_stages.specs.Changing.{change_for, compared_text, differ_at, grid_texts_of};
ghost use Rattle.sgm_stages.specs.Changing.{ground_refusal};
ghost use Rattle.sgm_stages.specs.Judge.{StopsFor};
ghost use Rattle.sgm_stages.specs.Made.{change_texts_in};
ghost use Rattle.sgm_stages.specs.Refusals.{or_refused, unless};

use crate::judge::judge_grid;
use crate::stops::TextsError;
use crate::{Input, Refusal};
use sgm_change::{change, write_difference, write_volumes};
use sgm_grid::{Grid, GridSpec};
use std::alloc::{AllocError, Global};

/// All texts of a change, under no names yet.
#[derive(Drop)]
pub struct ChangeTexts {
    pub difference: Vec<u8>,
    pub volumes: Vec<u8>,
    pub summary: Vec<u8>,
}

/// The texts that an earlier and a later grid call for by their bytes, or the first refusal.
pub(crate) fn change_texts(
    alloc: Global,
    earlier: &[u8],
    later: &[u8],
) -> Result<ChangeTexts, TextsError>
    ensures { MatchResult result
        (λ made. change_for (asc_reading earlier.now) (asc_reading later.now)
        ≡ Ok (change_texts_in made))
        (StopsFor (change_for (asc_reading earlier.now) (asc_reading later.now))) }
{
    let earlier = judge_grid(alloc, Input::Earlier, earlier)?;
    let later = judge_grid(alloc, Input::Later, later)?;
    grid_texts(alloc, &earlier, &later)
}

/// The texts of two grids, or their refusal where they don't lie on the same ground.
fn grid_texts(alloc: Global, earlier: &Grid, later: &Grid) -> Result<ChangeTexts, TextsError>
    ensures { MatchResult result
        (λ made. unless (ground_refusal earlier.now.spec later.now.spec)
        (grid_texts_of earlier.now later.now) ≡ Ok (change_texts_in made))
        (StopsFor
        (unless (ground_refusal earlier.now.spec later.now.spec)
        (grid_texts_of earlier.now later.now))) }
{
    if let Some(refusal) = ground_refusal(earlier.spec(), later.spec()) {
        return Err(TextsError::Refused(refusal));
    }
    let made = ChangeTexts::of(alloc, earlier, later)?;
    Ok(made)
}

/// The refusal of two numbers of the word `at`, where they differ.
fn differ_at(at: usize, earlier: i64, later: i64) -> Option<Refusal>
    ensures { result ≡ differ_at at earlier later }
{
    if earlier == later {
        return None;
    }
    Some(Refusal::GridsDiffer { at, earlier, later })
}

/// The refusal of two grids that don't lie on the same ground.
#[tactic(auto, unfolding(crate::specs::Changing::ground_refusal))]
fn ground_refusal(earlier: GridSpec, later: GridSpec) -> Option<Refusal>
    ensures { result ≡ ground_refusal earlier later }
{
    let cell = differ_at(9, earlier.cell, later.cell);
    let south = differ_at(7, earlier.south, later.south).or(cell);
    let west = differ_at(5, earlier.west, later.west).or(south);
    let rows = differ_at(3, i64::from(earlier.rows), i64::from(later.rows)).or(west);
    differ_at(1, i64::from(earlier.cols), i64::from(later.cols)).or(rows)
}

impl ChangeTexts {
    /// The texts of what changed between two grids of the same ranges.
    fn of(alloc: Global, earlier: &Grid, later: &Grid) -> Result<ChangeTexts, AllocError>
        requires { earlier.now.spec ≡ later.now.spec }
        ensures { IfOk result (λ made. change_texts_in made ≡ grid_texts_of earlier.now later.now) }
    {
        let changed = change(earlier, later);
        let mut difference = Vec::new(alloc);
        write_difference(earlier, later, &mut difference)?;
        let mut volumes = Vec::new(alloc);
        write_volumes(&changed, &mut volumes)?;
        let summary = summary(alloc, changed.both, earlier.spec())?.into_bytes();
        Ok(ChangeTexts {
            difference,
            volumes,
            summary,
        })
    }
}

/// How many of all cells have a height in both grids.
#[tactic(auto, unfolding(crate::specs::Changing::compared_text))]
fn summary(alloc: Global, both: u64, spec: GridSpec) -> Result<String, AllocError>
    requires { IsGridSpec spec }
    ensures { IfOk result (λ text. string_bytes text ≡ compared_text both spec) }
{
    let all = spec.cols as u64 * spec.rows as u64;
    let line = format!(in alloc; "compared {both} of {all}\n")?;
    Ok(line)
}
