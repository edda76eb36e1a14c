//! From bytes to readings: an image, a calibration, a grid, or the refusal for its first fault.
ghost use Rattle.std.specs.Prelude.{◌≡◌, Ok, Result, MatchResult, option_map};
ghost use Rattle.sgm_base.specs.Picture.{Picture};
ghost use Rattle.sgm_grid.specs.Asc.{asc_reading};
ghost use Rattle.sgm_pgm.specs.Read.{Reads};
ghost use Rattle.sgm_pgm.specs.declared.fault.PgmFault.{PgmFault};
ghost use Rattle.sgm_calib.specs.Calibration.{Calibration};
ghost use Rattle.sgm_calib.specs.declared.keys.CalibFault.{CalibFault};
ghost use Rattle.sgm_outcome.specs.declared.outcome.Refusal.TheVariants as refusal;
ghost use Rattle.sgm_stages.specs.Judge.{CalibReads, StopsFor, judged_for};
ghost use Rattle.sgm_stages.specs.Refusals.{or_refused};

use crate::stops::TextsError;
use crate::{Input, Refusal};
use sgm_base::{Image, Side};
use sgm_calib::{Calib, CalibError};
use sgm_grid::{AscError, Grid, read_asc};
use sgm_pgm::PgmError;
use std::alloc::Global;

/// A pair and its calibration, each judged.
#[derive(Drop)]
pub struct Judged {
    pub left: Image,
    pub right: Image,
    pub calib: Calib,
}

/// Both images and the calibration, judged in this order.
pub fn judge_pair(
    alloc: Global,
    left: &[u8],
    right: &[u8],
    calib: Option<&[u8]>,
) -> Result<Judged, TextsError>
    ensures { (left_reads right_reads : Result Picture PgmFault)
        (calib_reads : Result Calibration CalibFault)
        → Reads left.now left_reads → Reads right.now right_reads
        → CalibReads (option_map (λ b. b.now) calib.entry) calib_reads
        → MatchResult result
        (λ judged. judged_for left_reads right_reads calib_reads ≡ Ok judged)
        (StopsFor (judged_for left_reads right_reads calib_reads)) }
{
    match judge_image(alloc, Side::Left, left) {
        Ok(left) => match judge_image(alloc, Side::Right, right) {
            Ok(right) => match judge_calib(alloc, calib) {
                Ok(calib) => Ok(Judged { left, right, calib }),
                Err(stop) => Err(stop),
            },
            Err(stop) => Err(stop),
        },
        Err(stop) => Err(stop),
    }
}

/// The image of a side.
fn judge_image(alloc: Global, side: Side, bytes: &[u8]) -> Result<Image, TextsError>
    ensures { (reading : Result Picture PgmFault) → Reads bytes.now reading → MatchResult result
        (λ image. or_refused (refusal.Pgm side) reading ≡ Ok image)
        (StopsFor (or_refused (refusal.Pgm side) reading)) }
{
    match sgm_pgm::read(alloc, bytes) {
        Ok(image) => Ok(image),
        Err(PgmError::Fault(fault)) => Err(TextsError::Refused(Refusal::Pgm(side, fault))),
        Err(PgmError::NoMemory) => Err(TextsError::NoMemory),
    }
}

/// The calibration: the plain one where there are no bytes.
pub(crate) fn judge_calib(alloc: Global, bytes: Option<&[u8]>) -> Result<Calib, TextsError>
    ensures { (reading : Result Calibration CalibFault)
        → CalibReads (option_map (λ b. b.now) bytes.entry) reading → MatchResult result
        (λ calib. or_refused refusal.Calib reading ≡ Ok calib)
        (StopsFor (or_refused refusal.Calib reading)) }
{
    match bytes {
        None => Ok(Calib::plain()),
        Some(bytes) => match sgm_calib::read(alloc, bytes) {
            Ok(calib) => Ok(calib),
            Err(CalibError::Fault(fault)) => Err(TextsError::Refused(Refusal::Calib(fault))),
            Err(CalibError::NoMemory) => Err(TextsError::NoMemory),
        },
    }
}

/// The grid of an input.
pub(crate) fn judge_grid(alloc: Global, input: Input, bytes: &[u8]) -> Result<Grid, TextsError>
    ensures { MatchResult result
        (λ grid. or_refused (refusal.Asc input) (asc_reading bytes.now) ≡ Ok grid)
        (StopsFor (or_refused (refusal.Asc input) (asc_reading bytes.now))) }
{
    match read_asc(alloc, bytes) {
        Ok(grid) => Ok(grid),
        Err(AscError::Fault(fault)) => Err(TextsError::Refused(Refusal::Asc(input, fault))),
        Err(AscError::NoMemory) => Err(TextsError::NoMemory),
    }
}
