//! The series: from the words to the line of the outcome.
ghost use Rattle.std.specs.Prelude.{◌≡◌, ◌↔◌, ◌≤◌, ◌<◌, ◌+◌, ◌++◌, min, ℕ, List, length, take};
ghost use Rattle.std.specs.Prelude.{true, IsTrue, IfOk, IfErr, Err};
ghost use Rattle.sgm_words.specs.Operands.{bytes_of};
ghost use Rattle.sgm_list.specs.declared.limits.TheConstants.{MAX_ENTRIES};
ghost use Rattle.sgm_outcome.specs.Lines.{TakesLine};
ghost use Rattle.sgm_stages.specs.Ends.{faults, shelf_faults};
ghost use Rattle.sgm_series.specs.Words.{series_words, list_of};
ghost use Rattle.sgm_series.specs.Lines.{series_line};
ghost use Rattle.sgm_series.specs.Plans.{Plan, SeriesCallsFor, verdicts_of, entries_in};
ghost use Rattle.sgm_series.specs.Turns.{lines_for};
ghost use Rattle.sgm_series.specs.Ends.{HadTurns, SeriesFiles, SeriesOut};
ghost use Rattle.sgm_series.specs.Ends.{SeriesShownBy, SeriesUntouched};
ghost use Rattle.sgm_series.specs.Counted.{SeriesCounts, EntryCounts};
ghost use Rattle.sgm_series.specs.Unfinished.{SeriesFinished, SeriesUnfinished};
ghost use Rattle.sgm_series.specs.Complete.{SeriesComplete};
ghost use Rattle.sgm_series.specs.Received.{TakesLast};
ghost use Rattle.sgm_series.specs.Moments.{series_at};
ghost use Rattle.sgm_series.specs.SeriesEnds.{AllEnd, SeriesEnds};
ghost use Rattle.sgm_series.specs.Stands.{AreApart, IsListed, IsListEnd, IsListOutcome, ListCounts};
ghost use Rattle.sgm_series.specs.Stands.{outcome_for, unfetched_outcome, unlisted_outcome};
ghost use Rattle.sgm_series.specs.declared.words.SeriesUsage.{SeriesUsage};
ghost use Rattle.sgm_series.specs.declared.outcome.SeriesOutcome.TheVariants.{Usage};

use crate::answered::Answered;
use crate::limits::BATCH;
use crate::listed::Listed;
use crate::making::{BatchStop, make_batch};
use crate::turns::{Tally, TurnsStop, take_turns};
use crate::workshop::Workshop;
use crate::{SeriesOutcome, read_series_words, write_series_outcome};
use sgm_app::WriteStop;
use sgm_base::MAX_LIST_BYTES;
use sgm_io::{FetchError, Shelf, Sink};
use sgm_list::{Entry, ListError, ListFault, read_list};
use sgm_work::Gate;
use std::alloc::Global;
use std::sync::Wait;
use std::thread::Threads;

/// The outcome of a series whose list can't be fetched.
fn unfetched(error: FetchError) -> SeriesOutcome
    ensures { result ≡ unfetched_outcome error }
{
    match error {
        FetchError::Failed => SeriesOutcome::ListUnread,
        FetchError::TooLong => SeriesOutcome::RefusedList(ListFault::TooLong),
        FetchError::NoMemory => SeriesOutcome::NoMemory,
    }
}

/// The outcome of a series whose list has no entries to give.
fn unlisted(error: ListError) -> SeriesOutcome
    ensures { result ≡ unlisted_outcome error }
{
    match error {
        ListError::Fault(fault) => SeriesOutcome::RefusedList(fault),
        ListError::NoMemory => SeriesOutcome::NoMemory,
    }
}

/// The entries of the list.
fn read_entries<S: Shelf>(
    alloc: Global,
    shelf: &mut S,
    list: &str,
) -> Result<Vec<Entry>, SeriesOutcome>
    ensures entries { IsTrue S.tells
        → IfOk result (λ entries. IsListed list.now (S.held shelf.old) entries.items) }
    ensures apart { IfOk result (λ entries. AreApart entries.items) }
    ensures few { IfOk result (λ entries. length entries.items ≤ MAX_ENTRIES) }
    ensures end { IsTrue S.tells → IfErr result (IsListEnd (S.held shelf.old list.now) list.now) }
    ensures kind { IfErr result IsListOutcome }
    ensures unfinished { S.unfinished shelf.new ≡ S.unfinished shelf.old }
    ensures held { IsTrue S.tells → S.held shelf.new ≡ S.held shelf.old }
    ensures counts { (out : ℕ) → ListCounts list.now result
        (shelf_faults S.Shelf shelf.old out) (shelf_faults S.Shelf shelf.new out) }
{
    let mut bytes = Vec::new(alloc);
    match shelf.fetch(list, MAX_LIST_BYTES, &mut bytes) {
        Ok(()) => {}
        Err(error) => return Err(unfetched(error)),
    }
    match read_list(alloc, &bytes, list) {
        Ok(entries) => Ok(entries),
        Err(error) => Err(unlisted(error)),
    }
}

/// Where the batch ends that begins with an entry, of so many in all.
fn batch_end(first: usize, count: usize) -> usize
    requires { (first < count) × (count ≤ MAX_ENTRIES) }
    ensures { result ≡ min (first + 8) count }
{
    if count - first < BATCH {
        count
    } else {
        first + BATCH
    }
}

/// Takes all entries, a batch at a time, to the ends of their turns; where it stops, the outcome.
fn match_entries<R: Threads + Wait + Sync, S: Shelf, O: Sink, E: Sink, G: Gate + Sync>(
    workshop: &Workshop<'_, R, G>,
    listed: &Listed<'_>,
    shelf: &mut S,
    out: &mut O,
    err: &mut E,
    tally: &mut Tally,
) -> Result<(), SeriesOutcome>
    requires apart { AreApart listed.now.entries.now }
    requires start { (tally.old.refused ≡ 0) × (tally.old.whole ≡ true) }
    ensures { AllEnd listed.now.entries.now result
        (series_at S.Shelf O.Sink E.Sink shelf.old out.old err.old tally.old)
        (series_at S.Shelf O.Sink E.Sink shelf.new out.new err.new tally.new) }
{
    let mut first = 0;
    while first < listed.entries.len() {
        let end = batch_end(first, listed.entries.len());
        let entries = &listed.entries[first..end];
        let answers = match make_batch(workshop, entries, listed.workers, shelf) {
            Ok(answers) => answers,
            Err(stop) => return Err(stop.outcome(first)),
        };
        let answered = Answered { entries, answers };
        match take_turns(workshop.alloc, answered, shelf, out, err, tally) {
            Ok(()) => first = end,
            Err(stop) => return Err(stop.outcome(first)),
        }
    }
    Ok(())
}

/// The outcome of a series all of whose entries had their turns.
fn outcome_of(refused: u32) -> SeriesOutcome
    ensures { result ≡ outcome_for refused }
{
    match refused {
        0 => SeriesOutcome::Done,
        entries => SeriesOutcome::SomeRefused { entries },
    }
}

fn carry_out<R: Threads + Wait + Sync, S: Shelf, O: Sink, E: Sink, G: Gate + Sync>(
    workshop: &Workshop<'_, R, G>,
    words: &[String],
    shelf: &mut S,
    out: &mut O,
    err: &mut E,
    tally: &mut Tally,
) -> SeriesOutcome
    requires start { (tally.old.refused ≡ 0) × (tally.old.whole ≡ true) }
    ensures { SeriesEnds (bytes_of words.now) result
        (series_at S.Shelf O.Sink E.Sink shelf.old out.old err.old tally.old)
        (series_at S.Shelf O.Sink E.Sink shelf.new out.new err.new tally.new) }
{
    let words = match read_series_words(words) {
        Ok(words) => words,
        Err(fault) => return SeriesOutcome::Usage(fault),
    };
    let entries = match read_entries(workshop.alloc, shelf, words.list()) {
        Ok(entries) => entries,
        Err(outcome) => return outcome,
    };
    let listed = Listed {
        entries: entries.as_slice(),
        workers: words.workers(),
    };
    match match_entries(workshop, &listed, shelf, out, err, tally) {
        Ok(()) => outcome_of(tally.refused),
        Err(outcome) => outcome,
    }
}

/// Adds the outcome's line, unless `err` has failed before.
fn tell<E: Sink>(outcome: &SeriesOutcome, err: &mut E, whole: bool)
    ensures line { IsTrue E.tells → TakesLast whole (series_line outcome.now)
        (E.faults err.old) (E.faults err.new) (E.written err.old) (E.written err.new) }
    ensures err_faults { E.faults err.old ≤ E.faults err.new }
{
    if whole {
        match write_series_outcome(outcome, err) {
            Ok(()) => {}
            Err(_) => {}
        }
    }
}

/// A series of pairs: from the words after the program's name to the files and the summaries of all
/// entries of the list, in its order, the lines of those that are refused, and the line of the
/// outcome. Entries are made in batches of eight, by so many workers as the words say; whatever
/// their steps and their order, each clause stands. Clauses on files stand where the shelf tells
/// its bytes, those on what `out` and `err` have received where these do.
pub fn run_series<R: Threads + Wait + Sync, S: Shelf, O: Sink, E: Sink, G: Gate + Sync>(
    rt: &R,
    alloc: Global,
    words: &[String],
    shelf: &mut S,
    out: &mut O,
    err: &mut E,
    gate: &G,
) -> SeriesOutcome
    // What the words call for over the held files shows why the series ended so.
    ensures cause { IsTrue S.tells → (p : Plan)
        → SeriesCallsFor (bytes_of words.now) (S.held shelf.old) p → SeriesShownBy p result }

    // So many entries had their turns; what is held, and what `out` and `err` have received.
    ensures stands { IsTrue S.tells → (p : Plan)
        → SeriesCallsFor (bytes_of words.now) (S.held shelf.old) p → (turns : ℕ)
        × HadTurns result (length (verdicts_of p)) turns
        × SeriesFiles result turns (verdicts_of p) (S.held shelf.old) (S.held shelf.new)
        × (IsTrue O.tells
        → SeriesOut result turns (verdicts_of p) (O.written out.old) (O.written out.new))
        × (IsTrue E.tells → TakesLine (lines_for (take turns (verdicts_of p)) ++ series_line result)
        (E.faults err.old) (E.faults err.new) (E.written err.old) (E.written err.new)) }

    // `out` has received nothing before the first batch is made.
    ensures untouched { IsTrue O.tells
        → SeriesUntouched result (O.written out.old) (O.written out.new) }

    // No name is left begun, but that of an output whose writing stopped; where all entries had
    // their turns, each of their files is finished.
    ensures unfinished { IsTrue S.tells → (p : Plan)
        → SeriesCallsFor (bytes_of words.now) (S.held shelf.old) p
        → SeriesUnfinished (entries_in p) result (S.unfinished shelf.old) (S.unfinished shelf.new) }
    ensures finished { IsTrue S.tells → (p : Plan)
        → SeriesCallsFor (bytes_of words.now) (S.held shelf.old) p
        → SeriesFinished result (verdicts_of p) (S.unfinished shelf.new) }

    // A fault of reading or writing comes only where its count rose; without one no count changed.
    ensures counts { SeriesCounts (list_of (bytes_of words.now)) result
        (faults (S.read_faults shelf.old) (S.write_faults shelf.old) (O.faults out.old))
        (faults (S.read_faults shelf.new) (S.write_faults shelf.new) (O.faults out.new)) }
    ensures entry_counts { IsTrue S.tells → (p : Plan)
        → SeriesCallsFor (bytes_of words.now) (S.held shelf.old) p
        → EntryCounts (entries_in p) result
        (faults (S.read_faults shelf.old) (S.write_faults shelf.old) (O.faults out.old))
        (faults (S.read_faults shelf.new) (S.write_faults shelf.new) (O.faults out.new)) }

    // A fault of the words is the outcome exactly where the words have it.
    ensures usage { (fault : SeriesUsage)
        → (result ≡ Usage fault) ↔ (series_words (bytes_of words.now) ≡ Err fault) }

    // Where no count stands in the way, the outcome is the one that is called for, or there was no
    // memory.
    ensures complete { IsTrue S.tells → (p : Plan)
        → SeriesCallsFor (bytes_of words.now) (S.held shelf.old) p
        → SeriesComplete (list_of (bytes_of words.now)) p result
        (faults (S.read_faults shelf.old) (S.write_faults shelf.old) (O.faults out.old))
        (faults (S.read_faults shelf.new) (S.write_faults shelf.new) (O.faults out.new)) }

    // `err` has received lines and then the outcome's line, or, where its count rose, the beginning
    // of that.
    ensures line { IsTrue E.tells → (lines : List ℕ) × TakesLine (lines ++ series_line result)
        (E.faults err.old) (E.faults err.new) (E.written err.old) (E.written err.new) }
    ensures err_faults { E.faults err.old ≤ E.faults err.new }
{
    let mut tally = Tally {
        refused: 0,
        whole: true,
    };
    let workshop = Workshop { rt, alloc, gate };
    let outcome = carry_out(&workshop, words, shelf, out, err, &mut tally);
    tell(&outcome, err, tally.whole);
    outcome
}
