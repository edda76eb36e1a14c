//! What was made of the inputs of a pair.
ghost use Rattle.std.specs.Prelude.{◌≡◌};
ghost use Rattle.sgm_batch.specs.Pieces.{IsMadeOf};

use sgm_app::{Inputs, MadeTexts, Refine, TextsError, texts};
use sgm_work::{Came, OpenGate};
use std::alloc::Global;
use std::marker::Model;
use std::snapshot::Snapshot;
use std::thread::Threads;

/// What a worker made of the inputs of an entry: their texts, unless they are refused or there was
/// no memory.
#[derive(Drop)]
pub struct Piece {
    entry: u32,
    worker: u32,
    made: Result<MadeTexts, TextsError>,
    inputs: Snapshot<Inputs>,
}

impl Model for Piece {
    ghost use Rattle.sgm_batch.specs.Pieces.{IsMadeOf, PieceParts};

    ghost Value = { PieceParts };

    ghost view = { λ p. record {
      entry = p.entry;
      worker = p.worker;
      inputs = p.inputs.value;
      made = p.made;
    } };

    ghost invariant = { λ p. IsMadeOf p.inputs.value p.made };
}

impl Piece {
    /// The piece of the entry with which a worker came to the gate, made by that worker in one
    /// strip.
    pub(crate) fn make<R: Threads + Sync, G>(
        rt: &R,
        alloc: Global,
        inputs: &Inputs,
        came: Came<G>,
    ) -> Piece
        ensures entry { result.entry ≡ came.task }
        ensures worker { result.worker ≡ came.worker }
        ensures inputs { result.inputs ≡ inputs.now }
    {
        let made = texts(
            rt,
            alloc,
            inputs.left(),
            inputs.right(),
            inputs.calib(),
            1,
            1,
            Refine::PLAIN,
            &OpenGate,
        );
        Piece {
            entry: came.task(),
            worker: came.worker(),
            made,
            inputs: Snapshot::of(inputs),
        }
    }

    /// The place of the entry in its batch.
    pub fn entry(&self) -> u32
        ensures { result ≡ self.now.entry }
    {
        self.entry
    }

    /// The number of the worker that made it.
    pub fn worker(&self) -> u32
        ensures { result ≡ self.now.worker }
    {
        self.worker
    }

    /// What was made.
    pub fn into_made(self) -> Result<MadeTexts, TextsError>
        ensures made { result ≡ self.made }
        ensures right { IsMadeOf self.inputs result }
    {
        let Piece {
            entry: _,
            worker: _,
            made,
            inputs: _,
        } = self;
        made
    }
}
