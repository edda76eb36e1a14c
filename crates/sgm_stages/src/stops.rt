//! What ends a stage of a run before its end.
ghost use Rattle.std.specs.Prelude.{◌≡◌};
ghost use Rattle.sgm_stages.specs.Stops.{fetch_outcome, texts_outcome, write_outcome};

use crate::{Input, Outcome, Output, Refusal};
use std::alloc::AllocError;

/// What ends the fetching of the inputs.
#[derive(Clone, Copy)]
pub enum FetchStop {
    /// The input can't be read, or isn't there.
    Unread(Input),
    /// The input has more bytes than are allowed.
    TooLong(Input),
    /// There was no memory to fetch an input.
    NoMemory,
}

/// Why there are no texts.
#[derive(Clone, Copy)]
pub enum TextsError {
    /// No texts are called for: this is the first fault of the inputs.
    Refused(Refusal),
    /// There was no memory to judge the inputs, to survey them or to make the texts.
    NoMemory,
}

/// What ends the writing of the outputs.
#[derive(Clone, Copy)]
pub enum WriteStop {
    /// The file of this output can't be begun, written or finished.
    Unwritten(Output),
    /// There was no memory to write a file.
    NoMemory,
}

impl FetchStop {
    /// The outcome of a run that ends with it.
    pub fn outcome(self) -> Outcome
        ensures { result ≡ fetch_outcome self }
    {
        match self {
            FetchStop::Unread(input) => Outcome::ReadFault(input),
            FetchStop::TooLong(input) => Outcome::Refused(Refusal::TooLong(input)),
            FetchStop::NoMemory => Outcome::NoMemory,
        }
    }
}

impl TextsError {
    /// The outcome of a run that ends with it.
    pub fn outcome(self) -> Outcome
        ensures { result ≡ texts_outcome self }
    {
        match self {
            TextsError::Refused(refusal) => Outcome::Refused(refusal),
            TextsError::NoMemory => Outcome::NoMemory,
        }
    }
}

impl WriteStop {
    /// The outcome of a run that ends with it.
    pub fn outcome(self) -> Outcome
        ensures { result ≡ write_outcome self }
    {
        match self {
            WriteStop::Unwritten(output) => Outcome::WriteFault(output),
            WriteStop::NoMemory => Outcome::NoMemory,
        }
    }
}

impl From<AllocError> for TextsError {
    ghost use Rattle.sgm_stages.specs.declared.stops.TextsError.TheVariants.{NoMemory};

    ghost from_gives = { λ _ error. error ≡ NoMemory };

    fn from(_: AllocError) -> TextsError {
        TextsError::NoMemory
    }
}
