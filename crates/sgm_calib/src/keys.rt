ghost use Rattle.std.specs.Prelude.{◌≡◌, ◌≤◌, ◌==◌, length, option_map};
ghost use Rattle.std.specs.List.{find};
ghost use Rattle.sgm_calib.specs.Rows.{meant};
ghost use Rattle.sgm_calib.specs.Paths.{row_of, part_of, has_index, front_of, back_of};

use crate::table::{REGION, REGIONS, Row, rows};
use std::alloc::AllocError;

/// A key of the calibration file: its number in the key table, and for a key of a region the
/// region's place in the list, else 0.
#[derive(Clone, Copy, PartialEq, Eq)]
pub struct Key {
    pub number: u8,
    pub index: u32,
}

/// The first of the rows with that number.
fn find_row(rows: &'static [Row], number: u8) -> Option<&'static Row>
    ensures { option_map (λ row. row.now) result ≡ find (λ row. row.number == number) rows.now }
{
    rows.iter().find(|row| row.number == number)
}

/// The row of that number.
fn row_of(number: u8) -> Option<&'static Row>
    ensures { option_map (λ row. meant row.now) result ≡ row_of number }
{
    find_row(rows(), number)
}

fn part(number: u8) -> &'static str
    ensures { result.now ≡ part_of number }
{
    match row_of(number) {
        None => "",
        Some(row) => row.path,
    }
}

impl Key {
    /// Whether the key belongs to a region. It is then printed as its front, its index in decimal
    /// and its back, and else as its front alone.
    pub fn has_index(&self) -> bool
        ensures { result ≡ has_index self.now.number }
    {
        match row_of(self.number) {
            None => false,
            Some(row) => row.object == REGIONS.number || row.object == REGION.number,
        }
    }

    /// The key's path, as `disparities.first`, or what stands before the index.
    pub fn front(&self) -> &'static str
        ensures value { result.now ≡ front_of self.now.number }
        ensures short { length result.now ≤ 40 }
    {
        if self.has_index() {
            "regions["
        } else {
            part(self.number)
        }
    }

    /// What follows the index, or nothing.
    pub fn back(&self) -> &'static str
        ensures value { result.now ≡ back_of self.now.number }
        ensures short { length result.now ≤ 40 }
    {
        if self.has_index() {
            part(self.number)
        } else {
            ""
        }
    }
}

/// What is wrong with a calibration file.
#[derive(Clone, Copy, PartialEq, Eq)]
pub enum CalibFault {
    /// It isn't JSON.
    Json,
    /// The version is none that is known.
    Version,
    /// A key that must be there isn't.
    Missing(Key),
    /// This object has a name that the key table doesn't give it.
    Unknown(Key),
    /// The key's value has the wrong type.
    Type_(Key),
    /// The key's value is out of range.
    Range(Key),
}

/// Why there is no calibration.
#[derive(Clone, Copy, PartialEq, Eq)]
pub enum CalibError {
    Fault(CalibFault),
    NoMemory,
}

impl From<CalibFault> for CalibError {
    ghost use Rattle.sgm_calib.specs.declared.keys.CalibError.TheVariants.{Fault};

    ghost from_gives = { λ fault error. error ≡ Fault fault };

    fn from(fault: CalibFault) -> CalibError {
        CalibError::Fault(fault)
    }
}

impl From<AllocError> for CalibError {
    ghost use Rattle.sgm_calib.specs.declared.keys.CalibError.TheVariants.{NoMemory};

    ghost from_gives = { λ _ error. error ≡ NoMemory };

    fn from(_: AllocError) -> CalibError {
        CalibError::NoMemory
    }
}
