//! The lines of faults.
ghost use Rattle.std.specs.Prelude.{◌≡◌};
ghost use Rattle.sgm_list.specs.Lines.{fault_line};

use crate::ListFault;
use sgm_text::Line;

/// The line of a fault. Takes no memory.
pub fn fault_line(fault: ListFault) -> Line
    ensures { result ≡ fault_line fault }
{
    let line = Line::new();
    match fault {
        ListFault::TooLong => line.text("sgm_series: list is too long\n"),
        ListFault::NotText => line.text("sgm_series: list is not text\n"),
        ListFault::Line { number } => line
            .text("sgm_series: line ")
            .number(number as u64)
            .text(" does not have four words\n"),
        ListFault::TooMany { entries: _ } => line.text("sgm_series: too many entries\n"),
        ListFault::Clash { entry } => line
            .text("sgm_series: entry ")
            .number(entry as u64)
            .text(" clashes\n"),
    }
}
