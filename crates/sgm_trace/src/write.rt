ghost use Rattle.std.specs.Prelude.{◌≡◌, ◌++◌, OnOk, OnErr, flat_map};
ghost use Rattle.sgm_text.specs.Texts.{StartsAs};
ghost use Rattle.sgm_trace.specs.Texts.{step_text, traced_text};

use crate::traced::{Step, Traced};
use sgm_text::append_number;
use std::alloc::AllocError;

/// Adds the certificate's text: `least E` with its energy, then for each step a line `X Y D COST
/// JUMP`. Each line ends in a line feed. `into` is unchanged on Err.
pub fn write_trace(traced: &Traced, into: &mut Vec<u8>) -> Result<(), AllocError>
    ensures ok { OnOk result (into.new.items
        ≡ into.old.items ++ traced_text traced.now.energy traced.now.steps.items) }
    ensures err { OnErr result (into.new.items ≡ into.old.items) }
{
    let start = into.len();
    let written = append_text(traced, into);
    if written.is_err() {
        into.truncate(start);
    }
    written
}

/// Adds the text. On Err a part of it may have been added.
#[tactic(auto, using(sgm_text::proofs::Beginnings::starts_on, sgm_text::proofs::Beginnings::starts_append))]
fn append_text(traced: &Traced, into: &mut Vec<u8>) -> Result<(), AllocError>
    ensures ok { OnOk result (into.new.items
        ≡ into.old.items ++ traced_text traced.now.energy traced.now.steps.items) }
    ensures err { OnErr result (StartsAs into.old.items into.new.items) }
{
    into.extend_from_slice(b"least ")?;
    append_number(traced.energy, b"\n", into)?;
    append_steps(&traced.steps, into)
}

/// Adds a line for each step.
#[tactic(auto, using(sgm_text::proofs::Beginnings::starts_on, sgm_text::proofs::Beginnings::starts_append))]
fn append_steps(steps: &[Step], into: &mut Vec<u8>) -> Result<(), AllocError>
    ensures ok { OnOk result (into.new.items ≡ into.old.items ++ flat_map step_text steps.now) }
    ensures err { OnErr result (StartsAs into.old.items into.new.items) }
{
    for step in steps {
        append_step(*step, into)?;
    }
    Ok(())
}

/// Adds the line of a step.
#[tactic(auto, using(sgm_text::proofs::Beginnings::starts_on, sgm_text::proofs::Beginnings::starts_append))]
fn append_step(step: Step, into: &mut Vec<u8>) -> Result<(), AllocError>
    ensures ok { OnOk result (into.new.items ≡ into.old.items ++ step_text step) }
    ensures err { OnErr result (StartsAs into.old.items into.new.items) }
{
    append_number(step.x, b" ", into)?;
    append_number(step.y, b" ", into)?;
    append_number(step.d, b" ", into)?;
    append_number(u32::from(step.cost), b" ", into)?;
    append_number(u32::from(step.jump), b"\n", into)
}
