ghost use Rattle.std.specs.Prelude.{◌≡◌, ◌≤◌, ◌++◌, length, IsSome, IfOk, option_map, string_bytes};
ghost use Rattle.std.specs.Str.{bytes_eq};
ghost use Rattle.sgm_words.specs.Files.{input_word, input_number, output_word, ending_of};
ghost use Rattle.sgm_words.specs.Files.{IsFileName, is_file_name};

use std::alloc::{AllocError, Global};

/// A file that is read.
#[derive(Clone, Copy, PartialEq, Eq)]
pub enum Input {
    Left,
    Right,
    Calibration,
    Earlier,
    Later,
    /// The list of the grids of a merge.
    List,
    /// The grid that is that entry of the list, counted from 0.
    Grid(u32),
}

/// What is written, in this order.
#[derive(Clone, Copy, PartialEq, Eq)]
pub enum Output {
    Disparity,
    Heights,
    Report,
    Summary,
    Difference,
    Volumes,
}

impl Input {
    /// Its word in fault lines, before its number where it has one.
    pub fn word(self) -> &'static str
        ensures value { result.now ≡ input_word self }
        ensures short { length result.now ≤ 11 }
    {
        match self {
            Input::Left => "left",
            Input::Right => "right",
            Input::Calibration => "calibration",
            Input::Earlier => "earlier",
            Input::Later => "later",
            Input::List => "list",
            Input::Grid(_) => "grid",
        }
    }

    /// Its number, where it is one of many.
    pub fn number(self) -> Option<u32>
        ensures { result ≡ input_number self }
    {
        match self {
            Input::Grid(number) => Some(number),
            _ => None,
        }
    }
}

impl Output {
    /// Its word in fault lines.
    pub fn word(self) -> &'static str
        ensures value { result.now ≡ output_word self }
        ensures short { length result.now ≤ 10 }
    {
        match self {
            Output::Disparity => "disparity",
            Output::Heights => "heights",
            Output::Report => "report",
            Output::Summary => "summary",
            Output::Difference => "difference",
            Output::Volumes => "volumes",
        }
    }

    /// The ending of its file's name; None for the summary, which is no file.
    pub fn ending(self) -> Option<&'static str>
        ensures { option_map (λ ending. ending.now) result ≡ ending_of self }
    {
        match self {
            Output::Disparity => Some(".pgm"),
            Output::Heights => Some(".asc"),
            Output::Report => Some(".csv"),
            Output::Summary => None,
            Output::Difference => Some(".asc"),
            Output::Volumes => Some(".csv"),
        }
    }

    /// The name of its file: OUT and the output's ending. Not for the summary.
    pub fn file_name(self, alloc: Global, out: &str) -> Result<String, AllocError>
        requires { IsSome (ending_of self) }
        ensures { IfOk result (λ name. IsFileName self out.now (string_bytes name)) }
    {
        let Some(ending) = self.ending() else {
            unreachable!();
        };
        let mut name = String::from_str(alloc, out)?;
        name.push_str(ending)?;
        Ok(name)
    }

    /// Whether a name is that of its file.
    pub(crate) fn has_file_name(self, out: &[u8], name: &[u8]) -> bool
        ensures { result ≡ is_file_name self out.now name.now }
    {
        match self.ending() {
            Some(ending) => is_joined(name, out, ending.as_bytes()),
            None => false,
        }
    }
}

// Whether the whole is the front and then the back.
fn is_joined(whole: &[u8], front: &[u8], back: &[u8]) -> bool
    ensures { result ≡ bytes_eq whole.now (front.now ++ back.now) }
{
    match whole.strip_prefix(front) {
        Some(rest) => rest == back,
        None => false,
    }
}
