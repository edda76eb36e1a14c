//! The line of an outcome, and writing it.
ghost use Rattle.std.specs.Prelude.{◌≡◌, ◌≤◌, IsTrue, length};
ghost use Rattle.sgm_io.specs.Sink.{SinkFaults, WritesWhole};
ghost use Rattle.sgm_outcome.specs.Lines.{word_line, usage_line, line_of, TakesLine};

use crate::Outcome;
use crate::refusals::{refusal_line, with_input};
use sgm_io::{Sink, SinkError, write_whole};
use sgm_text::Line;
use sgm_words::UsageFault;

// What is wrong with the word at a position.
fn word_line(position: usize, what: &str) -> Line
    requires { length what.now ≤ 64 }
    ensures { result ≡ word_line position what.now }
{
    Line::new()
        .text("sgm: word ")
        .number(position as u64)
        .text(what)
}

fn usage_line(fault: UsageFault) -> Line
    ensures { result ≡ usage_line fault }
{
    match fault {
        UsageFault::NoCommand => Line::new().text("sgm: no command\n"),
        UsageFault::UnknownCommand => Line::new().text("sgm: unknown command\n"),
        UsageFault::TooFew { have, need } => Line::new()
            .text("sgm: ")
            .number(have as u64)
            .text(" words after the command, ")
            .number(need as u64)
            .text(" needed\n"),
        UsageFault::EmptyName { position } => word_line(position, " is empty\n"),
        UsageFault::BadDirection { position } => word_line(position, " is not a direction\n"),
        UsageFault::BadNumber { position } => word_line(position, " is not a number in range\n"),
        UsageFault::BadOption { position } => word_line(position, " is not an option\n"),
        UsageFault::RepeatedOption { position } => word_line(position, " repeats an option\n"),
        UsageFault::OutputIsInput { position } => word_line(position, " is also an output\n"),
    }
}

#[tactic(auto, unfolding(crate::specs::Lines::line_of))]
fn outcome_line(outcome: Outcome) -> Line
    ensures { result ≡ line_of outcome }
{
    match outcome {
        Outcome::Done => Line::new(),
        Outcome::Usage(fault) => usage_line(fault),
        Outcome::Refused(refusal) => refusal_line(refusal),
        Outcome::ReadFault(input) => with_input(Line::new().text("sgm: cannot read "), input).text(
            "\n",
        ),
        Outcome::WriteFault(output) => Line::new()
            .text("sgm: cannot write ")
            .text(output.word())
            .text("\n"),
        Outcome::NoMemory => Line::new().text("sgm: no memory\n"),
    }
}

/// Writes the line of an outcome to the end of `err`; nothing for Done. On an error the sink has
/// failed, and has taken the beginning of the line at most. It takes no memory.
pub fn write_line<E: Sink>(outcome: &Outcome, err: &mut E) -> Result<(), SinkError>
    ensures written { IsTrue E.tells
        → WritesWhole (line_of outcome.now) result (E.written err.old) (E.written err.new) }
    ensures faults { SinkFaults result (E.faults err.old) (E.faults err.new) }
{
    write_whole(err, outcome_line(*outcome).as_bytes())
}

/// Writes the line of an outcome to the end of `err`; nothing for Done. Where the sink fails, it
/// has taken the beginning of the line at most, and the caller goes on: the sink's count of faults
/// alone shows it. It takes no memory.
pub fn write_fault<E: Sink>(outcome: &Outcome, err: &mut E)
    ensures line { IsTrue E.tells → TakesLine (line_of outcome.now)
        (E.faults err.old) (E.faults err.new) (E.written err.old) (E.written err.new) }
    ensures faults { E.faults err.old ≤ E.faults err.new }
{
    match write_line(outcome, err) {
        Ok(()) => {}
        Err(_) => {}
    }
}
