//! How a board is made.
ghost use Rattle.std.specs.Prelude.{◌≡◌, ◌+◌, ◌≤◌, ◌++◌, map, replicate, length, All, IfOk};
ghost use Rattle.std.specs.Prelude.{vec_len};
ghost use Rattle.sgm_base.specs.declared.limits.TheConstants.{MAX_WORKERS};
ghost use Rattle.sgm_strip.specs.Cuts.{CutParts};
ghost use Rattle.sgm_strip.specs.Scenes.{SceneParts};
ghost use Rattle.sgm_strip.specs.Parcels.{IsParcel};
ghost use Rattle.sgm_strip.specs.Fronts.{IsFront};
ghost use Rattle.sgm_board.specs.declared.slot.Slot.TheVariants.{OfStrip, OfFront};
ghost use Rattle.sgm_board.specs.Ready.{AreReady};
ghost use Rattle.sgm_board.specs.Boards.{scene_of, cut_of, passes_of, AreNew};

use crate::board::Board;
use crate::deal::deal;
use crate::pass::Pass;
use crate::rule::{HandOver, Plan};
use crate::slot::Slot;
use crate::view::View;
use atomic_table::{Refused, Table};
use sgm_base::MAX_WORKERS;
use sgm_strip::{Front, Parcel};
use std::alloc::{AllocError, Global};
use std::snapshot::Snapshot;

/// So many words that are 0.
fn zeros(alloc: Global, count: usize) -> Result<Vec<u64>, AllocError>
    ensures { IfOk result (λ v. v.items ≡ replicate count 0) }
{
    let mut words = Vec::with_capacity(alloc, count)?;
    for i in 0..count {
        let _place = i;
        words.push(0)?;
    }
    Ok(words)
}

/// The slots with the fronts and then the parcels.
fn lay(alloc: Global, parcels: Vec<Parcel>, fronts: Vec<Front>) -> Result<Vec<Slot>, AllocError>
    ensures slots { IfOk result (λ v. v.items
        ≡ map OfFront fronts.items ++ map OfStrip parcels.items) }
    ensures fronts { IfOk result (λ _. All IsFront fronts.items) }
    ensures parcels { IfOk result (λ _. All IsParcel parcels.items) }
{
    let mut slots = Vec::new(alloc);
    for front in fronts {
        // Known from here on: what the front keeps.
        let _ = front.dir();
        slots.push(Slot::OfFront(front))?;
    }
    for parcel in parcels {
        // Known from here on: what the parcel keeps.
        let _ = parcel.strip();
        slots.push(Slot::OfStrip(parcel))?;
    }
    Ok(slots)
}

impl Board {
    /// A board with these parcels and fronts, and so many passes, at most [`MAX_WORKERS`]. The
    /// parcels are those of all strips of one scene and one cut, in order, with the two level
    /// directions done and no other; the fronts are the six, in order, without visits. On an error
    /// all are dropped.
    pub fn start(
        alloc: Global,
        parcels: Vec<Parcel>,
        fronts: Vec<Front>,
        passes: u32,
    ) -> Result<(Board, Vec<Pass>), AllocError>
        requires ready { (scene : SceneParts) × (cut : CutParts)
            × AreReady scene cut parcels.items fronts.items }
        requires passes { (1 ≤ passes) × (passes ≤ MAX_WORKERS) }
        ensures board { (scene : SceneParts) (cut : CutParts)
            → AreReady scene cut parcels.items fronts.items
            → IfOk result (λ made. (scene_of made.0 ≡ scene) × (cut_of made.0 ≡ cut)) }
        ensures passes { IfOk result (λ made. (passes_of made.0 ≡ passes)
            × (vec_len made.1 ≡ passes)) }
        ensures new { IfOk result (λ made. AreNew made.0 made.1.items) }
    {
        let strips = parcels.len();
        let first = &parcels[0];
        let cut = first.cut();
        let plan = Plan {
            sample: Snapshot::of(first),
            passes,
        };
        let parcel_room = Vec::with_capacity(alloc, strips)?;
        let front_room = Vec::with_capacity(alloc, 6)?;
        let words = zeros(alloc, 6 + strips)?;
        let slots = lay(alloc, parcels, fronts)?;
        let (table, seat) = match Table::<Slot, View, Plan, HandOver, Global>::new(
            alloc,
            words.as_slice(),
            slots,
            &plan,
        ) {
            Ok(made) => made,
            Err(Refused { slots: _ }) => return Err(AllocError),
        };
        let made = deal(alloc, &table.shared, seat, passes)?;
        let board = Board {
            table,
            cut,
            parcels: parcel_room,
            fronts: front_room,
        };
        Ok((board, made))
    }
}
