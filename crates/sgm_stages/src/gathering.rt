//! Fetching the inputs, in their order.
ghost use Rattle.std.specs.Prelude.{◌≡◌, ℕ, IsTrue, List, MatchResult, IfOk, Option, option_map};
ghost use Rattle.std.specs.Prelude.{false};
ghost use Rattle.sgm_words.specs.Operands.{FileNames, of_merge, is_plain_word, IsInputName};
ghost use Rattle.sgm_words.specs.declared.files.Input.TheVariants.{Calibration};
ghost use Rattle.sgm_stages.specs.Ends.{StageCounts, ShownBy, NoneBefore};
ghost use Rattle.sgm_stages.specs.Stops.{fetch_outcome};
ghost use Rattle.sgm_stages.specs.Moments.{Keeps};
ghost use Rattle.sgm_stages.specs.Gather.{FetchesInput, FetchesCalib, AtHand, GridsAtHand};
ghost use Rattle.sgm_stages.specs.Gather.{MergeAtHand};
ghost use Rattle.sgm_stages.specs.Gather.{HavePair, HaveGrids, StopCounts};
ghost use Rattle.sgm_stages.specs.Verdict.{Verdict, most_bytes, pair_fetched, grids_fetched};
ghost use Rattle.sgm_stages.specs.Verdict.{merge_fetched};

use crate::Input;
use crate::stops::FetchStop;
use sgm_base::{MAX_CALIB_BYTES, MAX_GRID_BYTES, MAX_IMAGE_BYTES, MAX_LIST_BYTES};
use sgm_io::{FetchError, Shelf};
use sgm_words::{ChangeWords, MergeWords, OperandWords, is_plain};
use std::alloc::Global;
use std::marker::Model;

/// The bytes of the inputs of a match or a trace; those of the calibration where it isn't the plain
/// one.
#[derive(Drop)]
pub struct Inputs {
    pub left: Vec<u8>,
    pub right: Vec<u8>,
    pub calib: Option<Vec<u8>>,
}

impl Model for Inputs {
    ghost use Rattle.std.specs.Prelude.{option_map};
    ghost use Rattle.sgm_stages.specs.Inputs.{InputBytes};

    ghost Value = { InputBytes };

    ghost view = { λ i. record {
      left = i.left.items;
      right = i.right.items;
      calib = option_map (λ b. b.items) i.calib;
    } };
}

/// The bytes of the grids of a change.
#[derive(Drop)]
pub struct Grids {
    pub earlier: Vec<u8>,
    pub later: Vec<u8>,
}

/// The bytes of the list of a merge, and those of the calibration where it isn't the plain one.
#[derive(Drop)]
pub struct MergeInputs {
    pub list: Vec<u8>,
    pub calib: Option<Vec<u8>>,
}

impl Model for MergeInputs {
    ghost use Rattle.std.specs.Prelude.{option_map};
    ghost use Rattle.sgm_stages.specs.Inputs.{MergeBytes};

    ghost Value = { MergeBytes };

    ghost view = { λ i. record { list = i.list.items; calib = option_map (λ b. b.items) i.calib } };
}

impl MergeInputs {
    /// The bytes of the list.
    pub fn list(&self) -> &[u8]
        ensures { result.now ≡ self.now.list }
    {
        self.list.as_slice()
    }

    /// The bytes of the calibration; None for the plain one.
    pub fn calib(&self) -> Option<&[u8]>
        ensures { option_map (λ bytes. bytes.now) result ≡ self.now.calib }
    {
        calib_bytes(&self.calib)
    }
}

impl Inputs {
    /// The bytes of the left image.
    pub fn left(&self) -> &[u8]
        ensures { result.now ≡ self.now.left }
    {
        self.left.as_slice()
    }

    /// The bytes of the right image.
    pub fn right(&self) -> &[u8]
        ensures { result.now ≡ self.now.right }
    {
        self.right.as_slice()
    }

    /// The bytes of the calibration; None for the plain one.
    pub fn calib(&self) -> Option<&[u8]>
        ensures { option_map (λ bytes. bytes.now) result ≡ self.now.calib }
    {
        calib_bytes(&self.calib)
    }
}

// The bytes of a calibration, where there are any.
fn calib_bytes(calib: &Option<Vec<u8>>) -> Option<&[u8]>
    ensures { option_map (λ bytes. bytes.now) result ≡ option_map (λ bytes. bytes.items) calib.now }
{
    match calib {
        Some(bytes) => Some(bytes.as_slice()),
        None => None,
    }
}

// How many bytes an input may have.
fn most_bytes(input: Input) -> usize
    ensures { result ≡ most_bytes input }
{
    match input {
        Input::Left | Input::Right => MAX_IMAGE_BYTES,
        Input::Calibration => MAX_CALIB_BYTES,
        Input::List => MAX_LIST_BYTES,
        Input::Earlier | Input::Later | Input::Grid(_) => MAX_GRID_BYTES,
    }
}

pub(crate) fn fetch_input<S: Shelf>(
    alloc: Global,
    shelf: &mut S,
    input: Input,
    name: &str,
) -> Result<Vec<u8>, FetchStop>
    ensures keeps { Keeps S.Shelf shelf.old shelf.new }
    ensures bytes { IsTrue S.tells → FetchesInput input (S.held shelf.old name.now) result }
    ensures counts { (names : FileNames) → IsInputName names input name.now
        → StageCounts (StopCounts names) result S.Shelf shelf.old shelf.new }
{
    let mut bytes = Vec::new(alloc);
    match shelf.fetch(name, most_bytes(input), &mut bytes) {
        Ok(()) => Ok(bytes),
        Err(FetchError::Failed) => Err(FetchStop::Unread(input)),
        Err(FetchError::TooLong) => Err(FetchStop::TooLong(input)),
        Err(FetchError::NoMemory) => Err(FetchStop::NoMemory),
    }
}

// The bytes of the calibration of this name, where it isn't the plain one.
fn fetch_calib<S: Shelf>(
    alloc: Global,
    shelf: &mut S,
    name: &str,
) -> Result<Option<Vec<u8>>, FetchStop>
    ensures keeps { Keeps S.Shelf shelf.old shelf.new }
    ensures bytes { IsTrue S.tells
        → FetchesCalib (is_plain_word name.now) (S.held shelf.old name.now) result }
    ensures counts { (names : FileNames)
        → (is_plain_word name.now ≡ false → IsInputName names Calibration name.now)
        → StageCounts (StopCounts names) result S.Shelf shelf.old shelf.new }
{
    if is_plain(name) {
        return Ok(None);
    }
    match fetch_input(alloc, shelf, Input::Calibration, name) {
        Ok(bytes) => Ok(Some(bytes)),
        Err(stop) => Err(stop),
    }
}

/// Fetches the inputs of a match or a trace, in their order, until one can't be read, or is longer
/// than it may be.
pub fn gather<S: Shelf>(
    alloc: Global,
    shelf: &mut S,
    operands: &OperandWords<'_>,
) -> Result<Inputs, FetchStop>
    ensures keeps { Keeps S.Shelf shelf.old shelf.new }
    ensures at_hand { IsTrue S.tells
        → IfOk result (λ inputs. AtHand operands.now (S.held shelf.old) inputs) }
    ensures verdict { IsTrue S.tells → (next : Verdict) → NoneBefore 4 next → MatchResult result
        (λ _. pair_fetched operands.now (S.held shelf.old) next ≡ next)
        (λ stop. ShownBy (pair_fetched operands.now (S.held shelf.old) next) (fetch_outcome stop)) }
    ensures counts { (names : FileNames) → HavePair operands.now names
        → StageCounts (StopCounts names) result S.Shelf shelf.old shelf.new }
{
    match fetch_input(alloc, shelf, Input::Left, operands.left()) {
        Ok(left) => match fetch_input(alloc, shelf, Input::Right, operands.right()) {
            Ok(right) => match fetch_calib(alloc, shelf, operands.calib()) {
                Ok(calib) => Ok(Inputs { left, right, calib }),
                Err(stop) => Err(stop),
            },
            Err(stop) => Err(stop),
        },
        Err(stop) => Err(stop),
    }
}

/// Fetches the grids of a change, in their order.
pub fn gather_grids<S: Shelf>(
    alloc: Global,
    shelf: &mut S,
    operands: &ChangeWords<'_>,
) -> Result<Grids, FetchStop>
    ensures keeps { Keeps S.Shelf shelf.old shelf.new }
    ensures at_hand { IsTrue S.tells
        → IfOk result (λ grids. GridsAtHand operands.now (S.held shelf.old) grids) }
    ensures verdict { IsTrue S.tells → (next : Verdict) → NoneBefore 6 next → MatchResult result
        (λ _. grids_fetched operands.now (S.held shelf.old) next ≡ next)
        (λ stop. ShownBy (grids_fetched operands.now (S.held shelf.old) next)
        (fetch_outcome stop)) }
    ensures counts { (names : FileNames) → HaveGrids operands.now names
        → StageCounts (StopCounts names) result S.Shelf shelf.old shelf.new }
{
    match fetch_input(alloc, shelf, Input::Earlier, operands.earlier()) {
        Ok(earlier) => match fetch_input(alloc, shelf, Input::Later, operands.later()) {
            Ok(later) => Ok(Grids { earlier, later }),
            Err(stop) => Err(stop),
        },
        Err(stop) => Err(stop),
    }
}

/// Fetches the list and the calibration of a merge, in this order.
pub fn gather_merge<S: Shelf>(
    alloc: Global,
    shelf: &mut S,
    operands: &MergeWords<'_>,
) -> Result<MergeInputs, FetchStop>
    ensures keeps { Keeps S.Shelf shelf.old shelf.new }
    ensures at_hand { IsTrue S.tells
        → IfOk result (λ inputs. MergeAtHand operands.now (S.held shelf.old) inputs) }
    ensures verdict { IsTrue S.tells → (next : Verdict) → NoneBefore 4 next → MatchResult result
        (λ _. merge_fetched operands.now (S.held shelf.old) next ≡ next)
        (λ stop. ShownBy (merge_fetched operands.now (S.held shelf.old) next)
        (fetch_outcome stop)) }
    ensures counts { (listed : Option (List (List ℕ)))
        → StageCounts
        (StopCounts (of_merge operands.now listed)) result S.Shelf shelf.old shelf.new }
{
    match fetch_input(alloc, shelf, Input::List, operands.list()) {
        Ok(list) => match fetch_calib(alloc, shelf, operands.calib()) {
            Ok(calib) => Ok(MergeInputs { list, calib }),
            Err(stop) => Err(stop),
        },
        Err(stop) => Err(stop),
    }
}
