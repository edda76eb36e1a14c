//! The words after the operands, which are options.
ghost use Rattle.std.specs.Prelude.{◌≡◌, ◌<◌, ℕ, drop, slice_index_or, unwrap_or, Option, None};
ghost use Rattle.std.specs.Prelude.{Some, IfOk, IfSome, MatchResult};
ghost use Rattle.sgm_words.specs.Faults.{options_at, options_fault, set_for};
ghost use Rattle.sgm_words.specs.Operands.{bytes_of};
ghost use Rattle.sgm_words.specs.OptionTable.{entry_at};
ghost use Rattle.sgm_words.specs.Settings.{AreGiven};

use crate::UsageFault;
use crate::commands::Command;
use crate::operands::word_at;
use crate::option_table::{OPTION_COUNT, Setting, missing, set_by};

/// To what the options are set, by their places in the table.
pub type Settings = [Option<u32>; OPTION_COUNT];

// What a word sets, where the command has options.
fn set_for(command: Command, text: &[u8]) -> Option<Setting>
    ensures value { result ≡ set_for command text.now }
    ensures place { IfSome result (λ setting. setting.place < OPTION_COUNT) }
{
    if command.row().has_options {
        set_by(text)
    } else {
        None
    }
}

/// The settings of the words behind the operands, or the first fault of these words.
pub fn read_settings(command: Command, words: &[String]) -> Result<Settings, UsageFault>
    ensures fault { MatchResult result (λ _. options_fault command (bytes_of words.now) ≡ None)
        (λ fault. options_fault command (bytes_of words.now) ≡ Some fault) }
    ensures given { IfOk result
        (λ settings. AreGiven (drop (options_at command) (bytes_of words.now)) settings) }
{
    let start = command.row().operands + 1;
    let mut settings = [None; OPTION_COUNT];
    for position in start..words.len() {
        let Some(setting) = set_for(command, word_at(words, position)) else {
            return Err(UsageFault::BadOption { position });
        };
        if settings[setting.place].is_some() {
            return Err(UsageFault::RepeatedOption { position });
        }
        settings[setting.place] = Some(setting.value);
    }
    Ok(settings)
}

/// The value of the option at a place, given or missing.
pub fn value_at(settings: &Settings, place: usize) -> u32
    requires { place < OPTION_COUNT }
    ensures { result ≡ unwrap_or (slice_index_or settings.now place None) (entry_at place).missing }
{
    match settings[place] {
        Some(value) => value,
        None => missing(place),
    }
}
