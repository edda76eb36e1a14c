ghost use Rattle.std.specs.Prelude.{◌≡◌};
ghost use Rattle.sgm_outcome.specs.Status.{status_of};

use sgm_base::{Side, Size};
use sgm_calib::CalibFault;
use sgm_grid::AscFault;
use sgm_list::NamesFault;
use sgm_pgm::PgmFault;
use sgm_rectify::WarpFault;
use sgm_words::{Input, Output, UsageFault};

/// Why the inputs are refused.
#[derive(Clone, Copy)]
pub enum Refusal {
    /// The input has more bytes than are allowed.
    TooLong(Input),
    Pgm(Side, PgmFault),
    Calib(CalibFault),
    SizesDiffer { left: Size, right: Size },
    /// Width * height * count is above the limit.
    VolumeTooLarge { cells: u64 },
    /// The image of this side can't be rectified by its warp.
    Warp(Side, WarpFault),
    /// The pixel isn't in the image, or the index isn't below the count.
    NotInside { x: u32, y: u32, d: u32 },
    /// The bytes of this input are no grid's text.
    Asc(Input, AscFault),
    /// The word `at` of the two grids' heads, counted from 0, is the first number in which they
    /// differ.
    GridsDiffer { at: usize, earlier: i64, later: i64 },
    /// The list of a merge has this fault.
    List(NamesFault),
    /// This grid of a list, counted from 0, doesn't lie on the cells of the calibration's grid.
    NotOnCells { grid: u32 },
}

/// How a run ended.
#[derive(Clone, Copy)]
pub enum Outcome {
    Done,
    Usage(UsageFault),
    Refused(Refusal),
    ReadFault(Input),
    WriteFault(Output),
    NoMemory,
}

impl Outcome {
    /// The status that the program ends with: 0, 2, 3, 4, 5, 6 in the order of the variants.
    pub fn status(&self) -> u8
        ensures { result ≡ status_of self.now }
    {
        match self {
            Outcome::Done => 0,
            Outcome::Usage(_) => 2,
            Outcome::Refused(_) => 3,
            Outcome::ReadFault(_) => 4,
            Outcome::WriteFault(_) => 5,
            Outcome::NoMemory => 6,
        }
    }
}
