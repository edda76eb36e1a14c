//! What is wrong with the operands of a command.
ghost use Rattle.std.specs.Prelude.{◌≡◌, ◌<◌, ◌+◌, ◌^◌};
ghost use Rattle.std.specs.Option.{option_or};
ghost use Rattle.sgm_words.specs.Faults.{first_fault, too_few, name_fault, direction_fault};
ghost use Rattle.sgm_words.specs.Faults.{number_fault};
ghost use Rattle.sgm_words.specs.Faults.{is_output, output_fault, operand_fault, overwrite_fault};
ghost use Rattle.sgm_words.specs.Operands.{bytes_of};

use crate::UsageFault;
use crate::commands::Command;
use crate::directions::direction;
use crate::numbers::number;
use crate::operands::word_at;

fn too_few(command: Command, words: &[String]) -> Option<UsageFault>
    ensures { result ≡ too_few command (bytes_of words.now) }
{
    let have = words.len().saturating_sub(1);
    let need = command.row().operands;
    if have < need {
        Some(UsageFault::TooFew { have, need })
    } else {
        None
    }
}

fn name_fault(words: &[String], position: usize) -> Option<UsageFault>
    ensures { result ≡ name_fault (bytes_of words.now) position }
{
    if word_at(words, position).is_empty() {
        Some(UsageFault::EmptyName { position })
    } else {
        None
    }
}

// What is wrong with the direction of a command that has one.
fn direction_fault(command: Command, words: &[String]) -> Option<UsageFault>
    ensures { result ≡ direction_fault command (bytes_of words.now) }
{
    let row = command.row();
    let position = row.names + 1;
    if row.has_direction && direction(word_at(words, position)).is_none() {
        Some(UsageFault::BadDirection { position })
    } else {
        None
    }
}

fn number_fault(words: &[String], position: usize) -> Option<UsageFault>
    ensures { result ≡ number_fault (bytes_of words.now) position }
{
    if number(word_at(words, position)).is_some() {
        None
    } else {
        Some(UsageFault::BadNumber { position })
    }
}

// Whether a name is that of an output of the command.
fn is_output(command: Command, out: &[u8], name: &[u8]) -> bool
    ensures { result ≡ is_output command out.now name.now }
{
    let outputs = command.row().outputs;
    outputs.iter().any(|output| output.has_file_name(out, name))
}

fn output_fault(command: Command, words: &[String], position: usize) -> Option<UsageFault>
    ensures { result ≡ output_fault command (bytes_of words.now) position }
{
    let out = word_at(words, command.row().names);
    if is_output(command, out, word_at(words, position)) {
        Some(UsageFault::OutputIsInput { position })
    } else {
        None
    }
}

// The first of so many names that is empty.
fn names_fault(words: &[String], names: usize) -> Option<UsageFault>
    requires { names < 2 ^ 32 }
    ensures { result ≡ first_fault (name_fault (bytes_of words.now)) 1 names }
{
    for position in 1..names + 1 {
        let fault = name_fault(words, position);
        if fault.is_some() {
            return fault;
        }
    }
    None
}

// The first of so many words that is no number.
fn numbers_fault(words: &[String], from: usize, numbers: usize) -> Option<UsageFault>
    requires { from + numbers < 2 ^ 32 }
    ensures { result ≡ first_fault (number_fault (bytes_of words.now)) from numbers }
{
    for position in from..from + numbers {
        let fault = number_fault(words, position);
        if fault.is_some() {
            return fault;
        }
    }
    None
}

/// What is wrong with the number of the operands, a name, a direction or a number.
pub fn operand_fault(command: Command, words: &[String]) -> Option<UsageFault>
    ensures { result ≡ operand_fault command (bytes_of words.now) }
{
    let row = command.row();
    if let Some(fault) = too_few(command, words) {
        return Some(fault);
    }
    if let Some(fault) = names_fault(words, row.names) {
        return Some(fault);
    }
    if let Some(fault) = direction_fault(command, words) {
        return Some(fault);
    }
    numbers_fault(words, row.operands + 1 - row.numbers, row.numbers)
}

/// The first input that is also an output.
pub fn overwrite_fault(command: Command, words: &[String]) -> Option<UsageFault>
    ensures { result ≡ overwrite_fault command (bytes_of words.now) }
{
    let names = command.row().names;
    for position in 1..names {
        let fault = output_fault(command, words, position);
        if fault.is_some() {
            return fault;
        }
    }
    None
}
