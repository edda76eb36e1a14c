ghost use Rattle.std.specs.Prelude.{◌≡◌, ◌↔◌, ◌≤◌, IsTrue, Err};
ghost use Rattle.sgm_words.specs.Operands.{of_match, bytes_of};
ghost use Rattle.sgm_words.specs.Words.{read_of};
ghost use Rattle.sgm_words.specs.declared.usage.UsageFault.{UsageFault};
ghost use Rattle.sgm_outcome.specs.Lines.{line_of, TakesLine};
ghost use Rattle.sgm_outcome.specs.declared.outcome.Outcome.TheVariants.{Done, Usage};
ghost use Rattle.sgm_app.specs.Calls.{CallsFor, MatchCallsFor};
ghost use Rattle.sgm_app.specs.Complete.{RunComplete, IsNoFileFault, NoneRose};
ghost use Rattle.sgm_stages.specs.Ends.{ShownBy, FilesStand, OutStands, OutUntouched, RunWriting};
ghost use Rattle.sgm_stages.specs.Ends.{RunCounts, faults_at, told_by};
ghost use Rattle.sgm_stages.specs.Moments.{moment};
ghost use Rattle.sgm_stages.specs.RunEnds.{RunEnds};
ghost use Rattle.sgm_app.specs.RunEnds.{WordsEnd};
ghost use Rattle.sgm_stages.specs.Unfinished.{AreFinished, RunUnfinished};
ghost use Rattle.sgm_stages.specs.Verdict.{Verdict, outputs_of};

use crate::certificate::TracePlace;
use crate::crew::Crew;
use crate::demo::run_demo;
use crate::pipeline::texts;
use crate::trace::run_trace;
use crate::{Options, Outcome, read_words, write_fault};
use sgm_base::Refine;
use sgm_io::{Shelf, Sink};
use sgm_stages::{deliver, gather, name_texts, run_change, run_merge};
use sgm_words::{ChangeWords, MergeWords, OperandWords};
use sgm_work::Gate;
use std::alloc::Global;
use std::thread::Threads;

// Gathers the inputs; makes their texts, which judges and surveys them; names the texts; and
// delivers them.
fn run_match<R: Threads + Sync, S: Shelf, O: Sink, G: Gate + Sync>(
    crew: &Crew<'_, R, G>,
    operands: &OperandWords<'_>,
    refine: Refine,
    shelf: &mut S,
    out: &mut O,
) -> Outcome
    ensures { RunEnds (of_match operands.now) (MatchCallsFor operands.now refine) result
        (moment S.Shelf O.Sink shelf.old out.old) (moment S.Shelf O.Sink shelf.new out.new) }
{
    let inputs = match gather(crew.alloc, shelf, operands) {
        Ok(inputs) => inputs,
        Err(stop) => return stop.outcome(),
    };
    let texts = match texts(
        crew.rt,
        crew.alloc,
        inputs.left(),
        inputs.right(),
        inputs.calib(),
        crew.strips,
        crew.workers,
        refine,
        crew.gate,
    ) {
        Ok(texts) => texts,
        Err(error) => return error.outcome(),
    };
    match name_texts(crew.alloc, operands, texts) {
        Ok(delivery) => deliver(shelf, out, &delivery),
        Err(_) => Outcome::NoMemory,
    }
}

fn carry_out<R: Threads + Sync, S: Shelf, O: Sink, G: Gate + Sync>(
    rt: &R,
    alloc: Global,
    words: &[String],
    shelf: &mut S,
    out: &mut O,
    gate: &G,
) -> Outcome
    ensures { WordsEnd (read_of (bytes_of words.now)) (bytes_of words.now) result
        (moment S.Shelf O.Sink shelf.old out.old) (moment S.Shelf O.Sink shelf.new out.new) }
{
    // A match in a match: one pattern for both that binds `refine` gets no proof.
    match read_words(words) {
        Ok(options) => match options {
            Options::Match {
                strips,
                workers,
                refine,
            } => {
                let crew = Crew::of(rt, alloc, strips, workers, gate);
                run_match(&crew, &OperandWords::of(words), refine, shelf, out)
            }
            Options::Demo {
                number,
                strips,
                workers,
                refine,
            } => {
                let crew = Crew::of(rt, alloc, strips, workers, gate);
                run_demo(&crew, number, refine, out)
            }
            Options::Trace { dir, x, y, d } => {
                let at = TracePlace { dir, x, y, d };
                run_trace(alloc, &OperandWords::of(words), at, shelf, out)
            }
            Options::Change => run_change(alloc, &ChangeWords::of(words), shelf, out),
            Options::Merge => run_merge(alloc, &MergeWords::of(words), shelf, out),
        },
        Err(fault) => Outcome::Usage(fault),
    }
}

/// The tool: from the words after the program's name to the files, the summary and the line of the
/// outcome. So many workers as the words say match the images, each in a thread of its own where
/// one can be made, and come to the gate with each strip that they claim; whatever their steps and
/// their order, each clause stands. What is written is of the map of disparities, refined as the
/// words say. Clauses on files stand where the shelf tells its bytes, those on what `out` and `err`
/// have received where these do.
pub fn run<R: Threads + Sync, S: Shelf, O: Sink, E: Sink, G: Gate + Sync>(
    rt: &R,
    alloc: Global,
    words: &[String],
    shelf: &mut S,
    out: &mut O,
    err: &mut E,
    gate: &G,
) -> Outcome
    // What the words call for over the held files shows why the run ended so.
    ensures cause { IsTrue S.tells → (v : Verdict)
        → CallsFor (bytes_of words.now) (S.held shelf.old) v → ShownBy v result }

    // What is held afterwards, and which name is being written.
    ensures files { IsTrue S.tells → (v : Verdict)
        → CallsFor (bytes_of words.now) (S.held shelf.old) v
        → FilesStand result v (S.held shelf.old) (S.held shelf.new) }
    ensures writing { RunWriting (read_of (bytes_of words.now)) (bytes_of words.now) result
        (S.writing shelf.old) (S.writing shelf.new) }

    // No name is left begun, but that of an output whose writing stopped; after Done each output is
    // finished.
    ensures unfinished { RunUnfinished (read_of (bytes_of words.now)) (bytes_of words.now) result
        (S.unfinished shelf.old) (S.unfinished shelf.new) }
    ensures finished { IsTrue S.tells → (v : Verdict)
        → CallsFor (bytes_of words.now) (S.held shelf.old) v
        → result ≡ Done → AreFinished (outputs_of v) (S.unfinished shelf.new) }

    // What `out` has received.
    ensures out { IsTrue S.tells → IsTrue O.tells → (v : Verdict)
        → CallsFor (bytes_of words.now) (S.held shelf.old) v
        → OutStands result v (O.written out.old) (O.written out.new) }
    ensures untouched { IsTrue O.tells
        → OutUntouched result (O.written out.old) (O.written out.new) }

    // A fault of reading or writing comes only where its count rose; without one no count changed.
    ensures counts { RunCounts (read_of (bytes_of words.now)) (bytes_of words.now)
        (told_by S.tells (S.held shelf.old)) result
        (faults_at S.Shelf O.Sink shelf.old out.old) (faults_at S.Shelf O.Sink shelf.new out.new) }

    // A fault of the words is the outcome exactly where the words have it.
    ensures usage { (fault : UsageFault)
        → (result ≡ Usage fault) ↔ (read_of (bytes_of words.now) ≡ Err fault) }

    // Where no count stands in the way, the outcome is the one that is called for, or there was no
    // memory.
    ensures complete { IsTrue S.tells → (v : Verdict)
        → CallsFor (bytes_of words.now) (S.held shelf.old) v
        → RunComplete (read_of (bytes_of words.now)) (bytes_of words.now)
        (told_by S.tells (S.held shelf.old)) v result
        (faults_at S.Shelf O.Sink shelf.old out.old) (faults_at S.Shelf O.Sink shelf.new out.new) }
    ensures sure { NoneRose (S.read_faults shelf.old) (S.read_faults shelf.new)
        → NoneRose (S.write_faults shelf.old) (S.write_faults shelf.new) → IsNoFileFault result }

    // `err` has received the outcome's line, or, where its count rose, the beginning of it.
    ensures line { IsTrue E.tells → TakesLine (line_of result)
        (E.faults err.old) (E.faults err.new) (E.written err.old) (E.written err.new) }
    ensures err_faults { E.faults err.old ≤ E.faults err.new }
{
    let outcome = carry_out(rt, alloc, words, shelf, out, gate);
    write_fault(&outcome, err);
    outcome
}
