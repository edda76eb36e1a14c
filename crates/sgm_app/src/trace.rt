//! The certificate of an index at a pixel, from the words to what is written.
ghost use Rattle.sgm_words.specs.Operands.{of_trace};
ghost use Rattle.sgm_app.specs.Calls.{TraceCallsFor};
ghost use Rattle.sgm_stages.specs.Moments.{Keeps, moment};
ghost use Rattle.sgm_stages.specs.RunEnds.{RunEnds};

use crate::Outcome;
use crate::certificate::{TracePlace, certificate};
use sgm_io::{Shelf, Sink};
use sgm_stages::{deliver_summary, gather};
use sgm_words::OperandWords;
use std::alloc::Global;

/// Gathers the inputs; makes the certificate, for which they are judged; and writes it to `out`.
pub fn run_trace<S: Shelf, O: Sink>(
    alloc: Global,
    operands: &OperandWords<'_>,
    at: TracePlace,
    shelf: &mut S,
    out: &mut O,
) -> Outcome
    ensures ends { RunEnds (of_trace operands.now)
        (TraceCallsFor operands.now at.dir at.x at.y at.d) result
        (moment S.Shelf O.Sink shelf.old out.old) (moment S.Shelf O.Sink shelf.new out.new) }
    ensures keeps { Keeps S.Shelf shelf.old shelf.new }
{
    let inputs = match gather(alloc, shelf, operands) {
        Ok(inputs) => inputs,
        Err(stop) => return stop.outcome(),
    };
    match certificate(alloc, inputs.left(), inputs.right(), inputs.calib(), at) {
        Ok(text) => deliver_summary(out, &text),
        Err(error) => error.outcome(),
    }
}
