//! The line of the outcome of a series.
ghost use Rattle.std.specs.Prelude.{◌≡◌, ◌≤◌, ◌+◌, IsTrue, length};
ghost use Rattle.sgm_io.specs.Sink.{SinkFaults, WritesWhole};
ghost use Rattle.sgm_series.specs.Lines.{usage_line, entry_line, series_line};

use crate::{SeriesOutcome, SeriesUsage};
use sgm_io::{Sink, SinkError, write_whole};
use sgm_list::fault_line;
use sgm_text::Line;

fn usage_line(fault: SeriesUsage) -> Line
    ensures { result ≡ usage_line fault }
{
    let line = Line::new();
    match fault {
        SeriesUsage::NoList => line.text("sgm_series: no list\n"),
        SeriesUsage::BadWord { position } => line
            .text("sgm_series: word ")
            .number(position as u64)
            .text(" is not accepted\n"),
    }
}

// What became of an entry.
fn entry_line(entry: u32, what: &str) -> Line
    requires { length what.now ≤ 32 }
    ensures bytes { result ≡ entry_line entry what.now }
    ensures short { length result ≤ 38 + length what.now }
{
    Line::new()
        .text("sgm_series: entry ")
        .number(entry as u64)
        .text(what)
}

#[tactic(auto, unfolding(crate::specs::Lines::series_line))]
fn outcome_line(outcome: SeriesOutcome) -> Line
    ensures { result ≡ series_line outcome }
{
    match outcome {
        SeriesOutcome::Done => Line::new(),
        SeriesOutcome::Usage(fault) => usage_line(fault),
        SeriesOutcome::RefusedList(fault) => fault_line(fault),
        SeriesOutcome::SomeRefused { entries } => Line::new()
            .text("sgm_series: ")
            .number(entries as u64)
            .text(" entries refused\n"),
        SeriesOutcome::ListUnread => Line::new().text("sgm_series: cannot read the list\n"),
        SeriesOutcome::ReadFault { entry, input } => entry_line(entry, ": cannot read ")
            .text(input.word())
            .text("\n"),
        SeriesOutcome::WriteFault { entry, output } => entry_line(entry, ": cannot write ")
            .text(output.word())
            .text("\n"),
        SeriesOutcome::NoMemory => Line::new().text("sgm_series: no memory\n"),
    }
}

/// Adds the outcome's line in one piece, or, where the sink has failed, its beginning; nothing for
/// Done. Takes no memory.
pub fn write_series_outcome<E: Sink>(outcome: &SeriesOutcome, err: &mut E) -> Result<(), SinkError>
    ensures written { IsTrue E.tells
        → WritesWhole (series_line outcome.now) result (E.written err.old) (E.written err.new) }
    ensures faults { SinkFaults result (E.faults err.old) (E.faults err.new) }
{
    write_whole(err, outcome_line(*outcome).as_bytes())
}
