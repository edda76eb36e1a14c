//! The texts that are written.
ghost use Rattle.std.specs.Prelude.{◌≡◌, ◌≤◌, ◌+◌, ◌*◌, ◌^◌, map, sum, count_by, is_some, length};
ghost use Rattle.std.specs.Prelude.{All, option_map, IfOk, IfSome, string_bytes};
ghost use Rattle.sgm_base.specs.Values.{AtMost};
ghost use Rattle.sgm_grid.specs.Text.{grid_text};
ghost use Rattle.sgm_report.specs.Areas.{IsRegionName};
ghost use Rattle.sgm_report.specs.Table.{table_text};
ghost use Rattle.sgm_stages.specs.Made.{texts_in};
ghost use Rattle.sgm_stages.specs.Texts.{sample_of, disparity_text, summary_text, demo_text};
ghost use Rattle.sgm_stages.specs.Texts.{map_texts, report_text};

use sgm_base::{DispMap, MAX_DISPARITY};
use sgm_calib::Calib;
use sgm_grid::Grid;
use sgm_pgm::write16;
use sgm_report::{Columns, Region, RegionTally, write_report};
use std::alloc::{AllocError, Global};

/// All texts of a survey, under no names yet: the disparity image, the heights where the
/// calibration has a grid, the report where it has regions, and the line of the summary.
#[derive(Drop)]
pub struct MadeTexts {
    pub disparity: Vec<u8>,
    pub heights: Option<Vec<u8>>,
    pub report: Option<Vec<u8>>,
    pub summary: Vec<u8>,
}

impl MadeTexts {
    /// The texts of a map, of its grid and of the tallies of its regions under this calibration.
    pub fn of(
        alloc: Global,
        calib: &Calib,
        disp: &DispMap,
        grid: &Option<Grid>,
        tallies: &Option<Vec<RegionTally>>,
    ) -> Result<MadeTexts, AllocError>
        requires bound { AtMost MAX_DISPARITY disp.now.entries }
        requires tallies { IfSome calib.now.regions
            (λ r. IfSome (option_map (λ v. v.items) tallies.now) (λ t. length t ≡ length r)) }
        ensures { IfOk result (λ made. texts_in made ≡ map_texts calib.now disp.now grid.now
            (option_map (λ v. v.items) tallies.now)) }
    {
        let disparity = disparity(alloc, disp)?;
        let heights = heights(alloc, grid)?;
        let report = report(alloc, calib.columns(), calib.regions(), tallies)?;
        let summary = summary(alloc, disp)?.into_bytes();
        Ok(MadeTexts {
            disparity,
            heights,
            report,
            summary,
        })
    }
}

/// The sample of a pixel: 0 where there is no disparity, otherwise its value and 16.
fn sample(entry: Option<u16>) -> u16
    requires { IfSome entry (λ value. value ≤ MAX_DISPARITY) }
    ensures { result ≡ sample_of entry }
{
    match entry {
        Some(value) => value + 16,
        None => 0,
    }
}

fn samples(alloc: Global, entries: &[Option<u16>]) -> Result<Vec<u16>, AllocError>
    requires { AtMost MAX_DISPARITY entries.now }
    ensures { IfOk result (λ v. v.items ≡ map sample_of entries.now) }
{
    let mut samples = Vec::with_capacity(alloc, entries.len())?;
    for entry in entries {
        samples.push(sample(*entry))?;
    }
    Ok(samples)
}

// The disparity image.
#[tactic(auto, unfolding(crate::specs::Texts::disparity_text))]
fn disparity(alloc: Global, disparities: &DispMap) -> Result<Vec<u8>, AllocError>
    requires { AtMost MAX_DISPARITY disparities.now.entries }
    ensures { IfOk result (λ text. text.items ≡ disparity_text disparities.now) }
{
    let size = disparities.size();
    let samples = samples(alloc, disparities.entries())?;
    let mut text = Vec::new(alloc);
    write16(size, &samples, &mut text)?;
    Ok(text)
}

// The heights, where there is a grid.
fn heights(alloc: Global, grid: &Option<Grid>) -> Result<Option<Vec<u8>>, AllocError>
    ensures { IfOk result (λ made. option_map (λ text. text.items) made
        ≡ option_map grid_text grid.now) }
{
    match grid {
        Some(grid) => {
            let mut text = Vec::new(alloc);
            grid.write_asc(&mut text)?;
            Ok(Some(text))
        }
        None => Ok(None),
    }
}

// The report, where there are regions.
pub(crate) fn report(
    alloc: Global,
    columns: Columns,
    regions: Option<&[Region]>,
    tallies: &Option<Vec<RegionTally>>,
) -> Result<Option<Vec<u8>>, AllocError>
    requires lengths { IfSome regions
        (λ r. IfSome tallies.now (λ t. length t.items ≡ length r.now)) }
    requires names { IfSome regions (λ r. All (λ area. IsRegionName area.name) r.now) }
    ensures { IfOk result (λ made. option_map (λ text. text.items) made
        ≡ report_text columns (option_map (λ r. r.now) regions.entry)
        (option_map (λ t. t.items) tallies.now)) }
{
    match (regions, tallies) {
        (Some(regions), Some(tallies)) => {
            let mut text = Vec::new(alloc);
            write_report(regions, tallies, columns, &mut text)?;
            Ok(Some(text))
        }
        _ => Ok(None),
    }
}

fn valid_count(entries: &[Option<u16>]) -> usize
    ensures { result ≡ count_by is_some entries.now }
{
    entries.iter().filter(|entry| entry.is_some()).count()
}

/// The summary of a match.
#[tactic(auto, unfolding(crate::specs::Texts::summary_text))]
fn summary(alloc: Global, disparities: &DispMap) -> Result<String, AllocError>
    ensures { IfOk result (λ text. string_bytes text ≡ summary_text disparities.now) }
{
    let valid = valid_count(disparities.entries());
    let all = disparities.size().pixels();
    let line = format!(in alloc; "valid {valid} of {all}\n")?;
    Ok(line)
}

// The sum of the samples of at most 4096 x 4096 pixels.
fn sample_sum(entries: &[Option<u16>]) -> u64
    requires few { length entries.now ≤ 2 ^ 24 }
    requires small { AtMost MAX_DISPARITY entries.now }
    ensures { result ≡ sum (map sample_of entries.now) }
{
    let mut total: u64 = 0;
    for entry in entries {
        total += sample(*entry) as u64;
    }
    total
}

/// The summary of a demo.
#[tactic(auto, unfolding(crate::specs::Texts::demo_text))]
pub fn demo_text(alloc: Global, disparities: &DispMap) -> Result<String, AllocError>
    requires { AtMost MAX_DISPARITY disparities.now.entries }
    ensures { IfOk result (λ text. string_bytes text ≡ demo_text disparities.now) }
{
    // That the map has at most 4096 x 4096 entries is seen by its size alone.
    let _size = disparities.size();
    let total = sample_sum(disparities.entries());
    let mut text = summary(alloc, disparities)?;
    let line = format!(in alloc; "sum {total}\n")?;
    text.push_str(line.as_str())?;
    Ok(text)
}
