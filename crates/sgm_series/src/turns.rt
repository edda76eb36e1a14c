//! The turns of the entries: what is written of each, or the line of its refusal.
ghost use Rattle.std.specs.Prelude.{◌≡◌, ◌+◌, ◌<◌, ◌≤◌, length, IsTrue, IfOk, IfErr};
ghost use Rattle.sgm_outcome.specs.Lines.{refusal_line};
ghost use Rattle.sgm_list.specs.declared.limits.TheConstants.{MAX_ENTRIES};
ghost use Rattle.sgm_stages.specs.Deliver.{FilesPut};
ghost use Rattle.sgm_stages.specs.Ends.{OutStands, WritingStands, CountsShow, faults_at};
ghost use Rattle.sgm_stages.specs.Unfinished.{AreFinished, UnfinishedStands};
ghost use Rattle.sgm_stages.specs.Verdict.{outputs_of};
ghost use Rattle.sgm_series.specs.Plans.{names_for};
ghost use Rattle.sgm_series.specs.Answers.{verdict_made};
ghost use Rattle.sgm_series.specs.Received.{ReceivesMore, StaysWhole};
ghost use Rattle.sgm_series.specs.Moments.{series_at};
ghost use Rattle.sgm_series.specs.Turned.{turn_end, StopShown};
ghost use Rattle.sgm_series.specs.TurnEnds.{TurnEnds, TurnsEnd};

use crate::SeriesOutcome;
use crate::answered::{Answered, Turn};
use crate::entries::operands_of;
use sgm_app::{MadeTexts, Outcome, Refusal, TextsError, WriteStop, deliver, name_texts};
use sgm_io::{Shelf, Sink};
use sgm_list::Entry;
use sgm_outcome::write_line;
use std::alloc::Global;

/// How the turns went so far: how many entries are refused, and whether `err` has taken every line.
#[derive(Clone, Copy, PartialEq, Eq)]
pub struct Tally {
    pub refused: u32,
    pub whole: bool,
}

/// The turn at this place stopped so.
#[derive(Clone, Copy)]
pub struct TurnsStop {
    pub place: usize,
    pub stop: WriteStop,
}

impl TurnsStop {
    ghost use Rattle.std.specs.Prelude.{◌≡◌, ◌≤◌, ◌+◌};
    ghost use Rattle.sgm_series.specs.Stands.{stop_outcome};

    /// The outcome of a series that ends so, `first` being the number of the first of the entries.
    pub fn outcome(self, first: usize) -> SeriesOutcome
        requires { first + self.place ≤ 1000 }
        ensures { result ≡ stop_outcome (first + self.place) self.stop }
    {
        match self.stop {
            WriteStop::Unwritten(output) => SeriesOutcome::WriteFault {
                entry: (first + self.place) as u32,
                output,
            },
            WriteStop::NoMemory => SeriesOutcome::NoMemory,
        }
    }
}

/// Writes the files of an entry, and then its summary.
fn write_entry<S: Shelf, O: Sink>(
    alloc: Global,
    entry: &Entry,
    texts: MadeTexts,
    shelf: &mut S,
    out: &mut O,
) -> Result<(), WriteStop>
    ensures shown { IsTrue S.tells → IfErr result (StopShown (verdict_made entry.now.out texts)) }
    ensures files { IsTrue S.tells
        → FilesPut (turn_end result) (verdict_made entry.now.out texts) (S.held shelf.old)
        (S.held shelf.new) }
    ensures out { IsTrue O.tells
        → OutStands (turn_end result) (verdict_made entry.now.out texts) (O.written out.old)
        (O.written out.new) }
    ensures writing { WritingStands (turn_end result) (S.writing shelf.old) (S.writing shelf.new) }
    ensures unfinished { UnfinishedStands (names_for entry.now) (turn_end result)
        (S.unfinished shelf.old) (S.unfinished shelf.new) }
    ensures finished { IfOk result
        (λ done. AreFinished (outputs_of (verdict_made entry.now.out texts))
        (S.unfinished shelf.new)) }
    ensures counts { CountsShow (names_for entry.now) (turn_end result)
        (faults_at S.Shelf O.Sink shelf.old out.old) (faults_at S.Shelf O.Sink shelf.new out.new) }
{
    match name_texts(alloc, &operands_of(entry), texts) {
        Ok(delivery) => match deliver(shelf, out, &delivery) {
            Outcome::Done => Ok(()),
            Outcome::WriteFault(output) => Err(WriteStop::Unwritten(output)),
            Outcome::NoMemory => Err(WriteStop::NoMemory),
            _ => unreachable!(),
        },
        Err(_) => Err(WriteStop::NoMemory),
    }
}

/// Counts a refused entry, and adds its line, unless `err` has failed before.
fn refuse<E: Sink>(refusal: Refusal, err: &mut E, tally: &mut Tally)
    requires { tally.old.refused < MAX_ENTRIES }
    ensures refused { tally.new.refused ≡ tally.old.refused + 1 }
    ensures lines { IsTrue E.tells
        → ReceivesMore tally.old.whole tally.new.whole (refusal_line refusal) (E.written err.old)
        (E.written err.new) }
    ensures whole { StaysWhole tally.old.whole tally.new.whole (E.faults err.old)
        (E.faults err.new) }
    ensures err_faults { E.faults err.old ≤ E.faults err.new }
{
    tally.refused += 1;
    if tally.whole {
        tally.whole = write_line(&Outcome::Refused(refusal), err).is_ok();
    }
}

/// The turn of an entry with its answer: its files and then its summary are written, or the line of
/// its refusal.
fn take_turn<S: Shelf, O: Sink, E: Sink>(
    alloc: Global,
    turn: Turn<'_>,
    shelf: &mut S,
    out: &mut O,
    err: &mut E,
    tally: &mut Tally,
) -> Result<(), WriteStop>
    requires { tally.old.refused < MAX_ENTRIES }
    ensures { TurnEnds turn.entry.entry.now turn.entry.answer result
        (series_at S.Shelf O.Sink E.Sink shelf.old out.old err.old tally.old)
        (series_at S.Shelf O.Sink E.Sink shelf.new out.new err.new tally.new) }
{
    let Turn { entry, answer } = turn;
    match answer {
        Ok(texts) => write_entry(alloc, entry, texts, shelf, out),
        Err(TextsError::Refused(refusal)) => {
            refuse(refusal, err, tally);
            Ok(())
        }
        Err(TextsError::NoMemory) => Err(WriteStop::NoMemory),
    }
}

/// The turns of some entries with their answers, in order, until one stops: the files and the
/// summary of an entry are written, or the line of its refusal. Once `err` has failed it gets no
/// more lines.
pub fn take_turns<S: Shelf, O: Sink, E: Sink>(
    alloc: Global,
    answered: Answered<'_>,
    shelf: &mut S,
    out: &mut O,
    err: &mut E,
    tally: &mut Tally,
) -> Result<(), TurnsStop>
    requires { tally.old.refused + length answered.entries.now ≤ MAX_ENTRIES }
    ensures { TurnsEnd answered.entry.entries.now answered.entry.answers.items result
        (series_at S.Shelf O.Sink E.Sink shelf.old out.old err.old tally.old)
        (series_at S.Shelf O.Sink E.Sink shelf.new out.new err.new tally.new) }
{
    let Answered { entries, answers } = answered;
    for (place, answer) in answers.into_iter().enumerate() {
        let turn = Turn {
            entry: &entries[place],
            answer,
        };
        match take_turn(alloc, turn, shelf, out, err, tally) {
            Ok(()) => {}
            Err(stop) => return Err(TurnsStop { place, stop }),
        }
    }
    Ok(())
}
