ghost use Rattle.std.specs.Prelude.{◌≡◌, ◌≤◌, ◌<◌, false, [], IfOk, length, vec_capacity};
ghost use Rattle.sgm_energy.specs.Dirs.{is_level};
ghost use Rattle.sgm_strip.specs.Fronts.{FrontParts, IsFront, front_parts};

use crate::{Cut, Scene};
use sgm_energy::Dir;
use std::alloc::{AllocError, Global};
use std::marker::Model;
use std::snapshot::Snapshot;

/// One visit of a front: the strip that it went through, and the worker who passed it on.
#[derive(Clone, Copy, PartialEq, Eq)]
pub struct Visit {
    pub strip: u32,
    pub worker: u32,
}

/// What a direction that is not level goes on with: the last row of path values of the strip that
/// it went through last, and its visits in order.
#[derive(Drop)]
pub struct Front {
    pub(crate) scene: Snapshot<Scene>,
    pub(crate) cut: Cut,
    pub(crate) dir: Dir,
    pub(crate) row: Vec<u16>,
    pub(crate) visits: Vec<Visit>,
}

impl Model for Front {
    ghost Value = { FrontParts };

    ghost view = { λ f. front_parts f.scene.value f.cut f.dir f.row.items f.visits.items };

    ghost invariant = { λ f.
        IsFront (front_parts f.scene.value f.cut f.dir f.row.items f.visits.items)
        × (f.cut.strips ≤ vec_capacity f.visits) };
}

impl Front {
    /// The front of a direction that has visited no strip, with room for the visits of all.
    pub fn make(alloc: Global, scene: &Scene, cut: Cut, dir: Dir) -> Result<Front, AllocError>
        requires across { is_level dir ≡ false }
        requires cut { cut.height ≡ scene.now.left.height }
        ensures made { IfOk result (λ front. front ≡ front_parts scene.now cut dir front.row []) }
        ensures kept { IfOk result IsFront }
    {
        // Known from here on: what the cut keeps.
        let _ = &cut.strips;
        let row = vec![in alloc; 0u16; scene.row_length()]?;
        let visits = Vec::with_capacity(alloc, cut.strips as usize)?;
        Ok(Front {
            scene: Snapshot::of(scene),
            cut,
            dir,
            row,
            visits,
        })
    }

    pub fn dir(&self) -> Dir
        ensures value { result ≡ self.now.dir }
        ensures kept { IsFront self.now }
    {
        self.dir
    }

    /// How many strips it has visited: the position of the next.
    pub fn next(&self) -> u32
        ensures value { result ≡ length self.now.visits }
        ensures most { result ≤ self.now.cut.strips }
    {
        self.visits.len() as u32
    }

    pub fn visits(&self) -> &[Visit]
        ensures { result.now ≡ self.now.visits }
    {
        &self.visits
    }
}
