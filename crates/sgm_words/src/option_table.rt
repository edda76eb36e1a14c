//! The table of options.
ghost use Rattle.std.specs.Prelude.{◌≡◌, ◌<◌, IfSome};
ghost use Rattle.sgm_words.specs.OptionTable.{value_for, set_by, entry_at};

use crate::numbers::number_within;
use sgm_base::{MAX_PEAK, MAX_STRIPS, MAX_WORKERS};

/// An option: its name with the sign, its least and greatest value, and what a missing one is.
pub struct OptionRow {
    name: &'static [u8],
    least: u32,
    greatest: u32,
    missing: u32,
}

/// How many options there are.
pub const OPTION_COUNT: usize = 4;

/// The places of the options in the table.
pub const STRIPS: usize = 0;

pub const WORKERS: usize = 1;

pub const PEAK: usize = 2;

pub const FILL: usize = 3;

const OPTION_TABLE: [OptionRow; OPTION_COUNT] = [
    OptionRow {
        name: b"strips=",
        least: 1,
        greatest: MAX_STRIPS,
        missing: 1,
    },
    OptionRow {
        name: b"workers=",
        least: 1,
        greatest: MAX_WORKERS,
        missing: 1,
    },
    OptionRow {
        name: b"peak=",
        least: 0,
        greatest: MAX_PEAK,
        missing: 0,
    },
    OptionRow {
        name: b"fill=",
        least: 0,
        greatest: 1,
        missing: 0,
    },
];

/// An option, by its place in the table, and the value that it is set to.
#[derive(Clone, Copy)]
pub struct Setting {
    pub place: usize,
    pub value: u32,
}

impl OptionRow {
    ghost use Rattle.sgm_words.specs.Rows.{option_seen};

    // The value that a word gives to the option.
    #[tactic(auto, unfolding(crate::specs::OptionTable::value_for))]
    fn value(&self, text: &[u8]) -> Option<u32>
        ensures { result ≡ value_for text.now (option_seen self.now) }
    {
        match text.strip_prefix(self.name) {
            Some(digits) => number_within(self.least, self.greatest, digits),
            None => None,
        }
    }
}

// The value that a word gives to the option at a place.
fn value_for(place: usize, text: &[u8]) -> Option<u32>
    requires { place < OPTION_COUNT }
    ensures { result ≡ value_for text.now (entry_at place) }
{
    OPTION_TABLE[place].value(text)
}

/// What a word sets, if it is an option.
pub fn set_by(text: &[u8]) -> Option<Setting>
    ensures value { result ≡ set_by text.now }
    ensures place { IfSome result (λ setting. setting.place < OPTION_COUNT) }
{
    for place in 0..OPTION_COUNT {
        if let Some(value) = value_for(place, text) {
            return Some(Setting { place, value });
        }
    }
    None
}

/// What a missing option is.
pub fn missing(place: usize) -> u32
    requires { place < OPTION_COUNT }
    ensures { result ≡ (entry_at place).missing }
{
    OPTION_TABLE[place].missing
}
