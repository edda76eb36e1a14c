//! How a board is taken apart.
ghost use Rattle.std.specs.Prelude.{◌≡◌, ℕ, ◌+◌, ◌*◌, ◌<◌, ◌≤◌, false, length, slice_index_or};
ghost use Rattle.std.specs.Prelude.{vec_len, vec_capacity};
ghost use Rattle.std.specs.Mem.Slots.{slots_items, slots_filled, slots_len};
ghost use Rattle.std.specs.Mem.Slots.Ownership.{Filled};
ghost use Rattle.sgm_energy.specs.declared.dir.Dir.{Dir};
ghost use Rattle.sgm_strip.specs.Fronts.{FrontParts};
ghost use Rattle.sgm_board.specs.Words.{dir_word, word_count};
ghost use Rattle.sgm_board.specs.Settled.{AreSettled, IsAt};
ghost use Rattle.sgm_board.specs.Emptied.{HaveFronts, HaveParcels, AreFirstFronts, AreFirstParcels};
ghost use Rattle.sgm_board.specs.Boards.{parts_of, scene_of, cut_of, passes_of, IsPassOf, IsIdle};
ghost use Rattle.sgm_board.specs.Boards.{HasAll};

use crate::board::Board;
use crate::pass::Pass;
use crate::slot::Slot;
use atomic_table::Closed;
use sgm_strip::{Front, Parcel};
use std::alloc::Global;

/// Takes the fronts out of their slots, in order.
fn take_fronts(closed: &mut Closed<Slot, Global>, fronts: &mut Vec<Front>)
    requires room { (vec_len fronts.old ≡ 0) × (6 ≤ vec_capacity fronts.old) }
    requires full { (6 ≤ slots_len closed.old.slots)
        × Filled (slots_filled closed.old.slots) 0 (slots_len closed.old.slots) }
    requires each { HaveFronts (slots_items closed.old.slots) }
    ensures slots { (slots_items closed.new.slots ≡ slots_items closed.old.slots)
        × (slots_len closed.new.slots ≡ slots_len closed.old.slots) }
    ensures full { Filled (slots_filled closed.new.slots) 6 (slots_len closed.old.slots) }
    ensures taken { (k : ℕ) → k < 6
        → slice_index_or (slots_filled closed.new.slots) k false ≡ false }
    ensures six { length fronts.new.items ≡ 6 }
    ensures fronts { AreFirstFronts (slots_items closed.old.slots) fronts.new.items }
{
    for place in 0..6 {
        let Slot::OfFront(front) = closed.take(place) else {
            unreachable!()
        };
        fronts.push_reserved(front);
    }
}

/// Takes the parcels out of theirs.
fn take_parcels(closed: &mut Closed<Slot, Global>, parcels: &mut Vec<Parcel>, strips: usize)
    requires room { (vec_len parcels.old ≡ 0) × (strips ≤ vec_capacity parcels.old) }
    requires full { (slots_len closed.old.slots ≡ word_count strips)
        × Filled (slots_filled closed.old.slots) 6 (slots_len closed.old.slots) }
    requires taken { (k : ℕ) → k < 6
        → slice_index_or (slots_filled closed.old.slots) k false ≡ false }
    requires each { HaveParcels (slots_items closed.old.slots) strips }
    ensures taken { (k : ℕ) → k < slots_len closed.new.slots
        → slice_index_or (slots_filled closed.new.slots) k false ≡ false }
    ensures all { length parcels.new.items ≡ strips }
    ensures parcels { AreFirstParcels (slots_items closed.old.slots) parcels.new.items }
{
    for strip in 0..strips {
        let Slot::OfStrip(parcel) = closed.take(6 + strip) else {
            unreachable!()
        };
        parcels.push_reserved(parcel);
    }
}

impl Board {
    /// The parcels and the fronts, in order, once a pass that holds nothing has gathered the
    /// numbers of all passes. Takes no memory.
    pub fn close(self, pass: Pass) -> (Vec<Parcel>, Vec<Front>)
        requires own { IsPassOf self pass }
        requires idle { IsIdle (parts_of pass) }
        requires all { HasAll (passes_of self) (parts_of pass) }
        ensures settled { AreSettled (scene_of self) (cut_of self) result.0.items result.1.items }
        ensures seen { (dir : Dir) (front : FrontParts) → IsAt result.1.items dir front
            → (parts_of pass).seen (dir_word dir) ≤ 2 * length front.visits }
    {
        let strips = self.strips() as usize;
        let Board {
            table,
            cut: _,
            mut parcels,
            mut fronts,
        } = self;
        let Pass { seat, number: _ } = pass;
        let mut closed = table.close_with(seat);
        take_fronts(&mut closed, &mut fronts);
        take_parcels(&mut closed, &mut parcels, strips);
        closed.free();
        (parcels, fronts)
    }
}
