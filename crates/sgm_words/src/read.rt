//! Reading the words.
ghost use Rattle.std.specs.Prelude.{◌≡◌, ◌<◌, ◌+◌, drop, length, IfOk};
ghost use Rattle.sgm_words.specs.Faults.{options_at, fault_of};
ghost use Rattle.sgm_words.specs.Operands.{bytes_of};
ghost use Rattle.sgm_words.specs.Ranges.{AreInRange, operand_count};
ghost use Rattle.sgm_words.specs.Settings.{AreGiven};
ghost use Rattle.sgm_words.specs.Words.{number_at, direction_at, asked_of, unless_fault, read_of};

use crate::commands::Command;
use crate::directions::direction;
use crate::faults::{operand_fault, overwrite_fault};
use crate::numbers::number;
use crate::operands::word_at;
use crate::option_table::{FILL, PEAK, STRIPS, WORKERS};
use crate::settings::{Settings, read_settings, value_at};
use crate::{Options, UsageFault};
use sgm_base::Refine;
use sgm_energy::Dir;

// The number at a position.
fn number_at(words: &[String], position: usize) -> u32
    ensures { result ≡ number_at (bytes_of words.now) position }
{
    number(word_at(words, position)).unwrap_or(0)
}

// The direction at a position.
fn direction_at(words: &[String], position: usize) -> Dir
    ensures { result ≡ direction_at (bytes_of words.now) position }
{
    direction(word_at(words, position)).unwrap_or(Dir::Right)
}

// What the words of a command ask for that sets its options to this.
fn asked(command: Command, words: &[String], settings: &Settings) -> Options
    requires { AreGiven (drop (options_at command) (bytes_of words.now)) settings.now }
    ensures exact { result ≡ asked_of command (bytes_of words.now) }
    ensures in_range { AreInRange result }
    ensures operands { operand_count result + 1 ≡ options_at command }
{
    let strips = value_at(settings, STRIPS);
    let workers = value_at(settings, WORKERS);
    let peak = value_at(settings, PEAK);
    let fill = value_at(settings, FILL);
    let refine = Refine {
        peak,
        fill: fill == 1,
    };
    match command {
        Command::Match => Options::Match {
            strips,
            workers,
            refine,
        },
        Command::Demo => Options::Demo {
            number: number_at(words, 1),
            strips,
            workers,
            refine,
        },
        Command::Trace => Options::Trace {
            dir: direction_at(words, 4),
            x: number_at(words, 5),
            y: number_at(words, 6),
            d: number_at(words, 7),
        },
        Command::Change => Options::Change,
        Command::Merge => Options::Merge,
    }
}

// The options of a command, or the first fault of its words.
fn read_command(command: Command, words: &[String]) -> Result<Options, UsageFault>
    requires { 0 < length words.now }
    ensures exact { result
        ≡ unless_fault (fault_of command (bytes_of words.now))
        (asked_of command (bytes_of words.now)) }
    ensures in_range { IfOk result AreInRange }
    ensures operands { IfOk result (λ options. operand_count options < length words.now) }
{
    if let Some(fault) = operand_fault(command, words) {
        return Err(fault);
    }
    let settings = match read_settings(command, words) {
        Ok(settings) => settings,
        Err(fault) => return Err(fault),
    };
    if let Some(fault) = overwrite_fault(command, words) {
        return Err(fault);
    }
    Ok(asked(command, words, &settings))
}

/// The options, or the first fault of the words. Takes no memory.
#[tactic(auto, unfolding(crate::specs::Words::read_of))]
pub fn read_words(words: &[String]) -> Result<Options, UsageFault>
    ensures exact { result ≡ read_of (bytes_of words.now) }
    ensures in_range { IfOk result AreInRange }
    ensures operands { IfOk result (λ options. operand_count options < length words.now) }
{
    if words.is_empty() {
        return Err(UsageFault::NoCommand);
    }
    match Command::named(word_at(words, 0)) {
        Some(command) => read_command(command, words),
        None => Err(UsageFault::UnknownCommand),
    }
}
