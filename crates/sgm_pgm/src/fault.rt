ghost use Rattle.std.specs.Prelude.{◌≡◌};
ghost use Rattle.sgm_pgm.specs.declared.fault.PgmError.TheVariants.{Fault, NoMemory};

use std::alloc::AllocError;

/// What is wrong with bytes that are no PGM text. Of several faults the one that is listed first,
/// and of two in the header the one nearer to the front.
#[derive(Clone, Copy, PartialEq, Eq)]
pub enum PgmFault {
    /// The bytes don't begin with `P5`.
    NotPgm,
    /// The bytes end inside the header.
    HeaderShort,
    /// The byte at `at`, counted from 0, is the first of the header that can't stand in its place.
    HeaderByte { at: usize },
    /// The width or the height is outside 1 to 4096.
    SizeRange,
    /// Maxval is outside 1 to 65535.
    MaxvalRange,
    /// `have` bytes stand after the header, and the samples need `need`, which is more.
    RasterShort { have: usize, need: usize },
    /// `index`, counted row by row from 0, is the least of a sample above maxval.
    SampleAbove { index: usize },
}

/// Why a text was not read.
#[derive(Clone, Copy, PartialEq, Eq)]
pub enum PgmError {
    /// The bytes are no PGM text.
    Fault(PgmFault),
    /// Memory ran out.
    NoMemory,
}

impl From<PgmFault> for PgmError {
    ghost from_gives = { λ fault error. error ≡ Fault fault };

    fn from(fault: PgmFault) -> PgmError {
        PgmError::Fault(fault)
    }
}

impl From<AllocError> for PgmError {
    ghost from_gives = { λ _ error. error ≡ NoMemory };

    fn from(_error: AllocError) -> PgmError {
        PgmError::NoMemory
    }
}
