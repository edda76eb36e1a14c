//! Writing the files, and then the summary.
ghost use Rattle.std.specs.Prelude.{◌≡◌, ◌<◌, [], length, IsTrue, All};
ghost use Rattle.sgm_io.specs.Counts.{Counts};
ghost use Rattle.sgm_words.specs.Operands.{FileNames};
ghost use Rattle.sgm_outcome.specs.declared.outcome.Outcome.TheVariants.{Done};
ghost use Rattle.sgm_stages.specs.Outputs.{IsNamed};
ghost use Rattle.sgm_stages.specs.Verdict.{files};
ghost use Rattle.sgm_stages.specs.Ends.{ShownBy, OutStands, WritingStands};
ghost use Rattle.sgm_stages.specs.Ends.{StageCounts, CountsShow, OutCountsShow, faults, faults_at};
ghost use Rattle.sgm_stages.specs.Unfinished.{AreFinished, UnfinishedStands};
ghost use Rattle.sgm_stages.specs.Deliver.{WritesFile, StopsAtFile, EndsWriting, FinishesFile};
ghost use Rattle.sgm_stages.specs.Deliver.{FileCounts};
ghost use Rattle.sgm_stages.specs.Deliver.{IsDeliveryEnd, WritesFiles, FinishesFiles, FilesCounts};
ghost use Rattle.sgm_stages.specs.Deliver.{FilesPut, delivered_by};

use crate::files::{Delivery, OutputText};
use crate::stops::WriteStop;
use crate::{Outcome, Output};
use sgm_io::{KeepError, Shelf, Sink, append_whole, write_whole};

fn write_file<S: Shelf>(shelf: &mut S, file: &OutputText) -> Result<(), WriteStop>
    ensures held { IsTrue S.tells
        → WritesFile file.now result (S.held shelf.old) (S.held shelf.new) }
    ensures stop { StopsAtFile file.now.output result }
    ensures writing { EndsWriting result (S.writing shelf.new) }
    ensures unfinished { FinishesFile file.now result
        (S.unfinished shelf.old) (S.unfinished shelf.new) }
    ensures counts { StageCounts (FileCounts file.now) result S.Shelf shelf.old shelf.new }
{
    match shelf.create(file.name()) {
        Ok(()) => {}
        Err(KeepError::Failed) => return Err(WriteStop::Unwritten(file.output())),
        Err(KeepError::NoMemory) => return Err(WriteStop::NoMemory),
    }
    match append_whole(shelf, file.text()) {
        Ok(()) => {}
        Err(KeepError::Failed) => return Err(WriteStop::Unwritten(file.output())),
        Err(KeepError::NoMemory) => return Err(WriteStop::NoMemory),
    }
    match shelf.finish() {
        Ok(()) => Ok(()),
        Err(KeepError::Failed) => Err(WriteStop::Unwritten(file.output())),
        Err(KeepError::NoMemory) => Err(WriteStop::NoMemory),
    }
}

fn write_files<S: Shelf>(shelf: &mut S, files: &[OutputText]) -> Result<(), WriteStop>
    ensures held { IsTrue S.tells
        → WritesFiles files.now result (S.held shelf.old) (S.held shelf.new) }
    ensures writing { 0 < length files.now → EndsWriting result (S.writing shelf.new) }
    ensures unfinished { FinishesFiles files.now result
        (S.unfinished shelf.old) (S.unfinished shelf.new) }
    ensures counts { StageCounts (FilesCounts files.now) result S.Shelf shelf.old shelf.new }
{
    for file in files {
        match write_file(shelf, file) {
            Ok(()) => {}
            Err(stop) => return Err(stop),
        }
    }
    Ok(())
}

/// Writes the files, and then the summary. It takes no memory of its own. The outcome is Done, or
/// the fault of writing that it stopped at, or the shelf's want of memory.
pub fn deliver<S: Shelf, O: Sink>(shelf: &mut S, out: &mut O, delivery: &Delivery) -> Outcome
    ensures ends { IsDeliveryEnd result }
    ensures files { IsTrue S.tells
        → FilesPut result (delivered_by delivery.now) (S.held shelf.old) (S.held shelf.new) }
    ensures out { IsTrue O.tells
        → OutStands result (delivered_by delivery.now) (O.written out.old) (O.written out.new) }
    ensures writing { WritingStands result (S.writing shelf.old) (S.writing shelf.new) }
    ensures unfinished { (names : FileNames) → All (IsNamed names) delivery.now.files.items
        → UnfinishedStands names result (S.unfinished shelf.old) (S.unfinished shelf.new) }
    ensures finished { result ≡ Done
        → AreFinished delivery.now.files.items (S.unfinished shelf.new) }
    ensures counts { (names : FileNames) → All (IsNamed names) delivery.now.files.items
        → CountsShow names result
        (faults_at S.Shelf O.Sink shelf.old out.old) (faults_at S.Shelf O.Sink shelf.new out.new) }
{
    match write_files(shelf, &delivery.files) {
        Ok(()) => match write_whole(out, &delivery.summary) {
            Ok(()) => Outcome::Done,
            Err(_) => Outcome::WriteFault(Output::Summary),
        },
        Err(stop) => stop.outcome(),
    }
}

/// Writes the summary of a run that writes no file. It takes no memory.
pub fn deliver_summary<O: Sink>(out: &mut O, summary: &[u8]) -> Outcome
    ensures shown { ShownBy (files [] summary.now) result }
    ensures out { IsTrue O.tells
        → OutStands result (files [] summary.now) (O.written out.old) (O.written out.new) }
    ensures counts { (reads writes : Counts) → OutCountsShow result
        (faults reads writes (O.faults out.old)) (faults reads writes (O.faults out.new)) }
{
    match write_whole(out, summary) {
        Ok(()) => Outcome::Done,
        Err(_) => Outcome::WriteFault(Output::Summary),
    }
}
