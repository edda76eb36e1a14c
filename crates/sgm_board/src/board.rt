//! The board.
ghost use Rattle.std.specs.Prelude.{◌≡◌, ◌≤◌, vec_len, vec_capacity};
ghost use Rattle.sgm_strip.specs.Cuts.{IsCut};
ghost use Rattle.sgm_board.specs.Words.{word_count};
ghost use Rattle.sgm_board.specs.Plans.{about_of};

use crate::rule::{HandOver, Plan};
use crate::slot::Slot;
use crate::view::View;
use atomic_table::Table;
use sgm_strip::{Cut, Front, Parcel};
use std::alloc::Global;

/// The parcels and the fronts of a scene, which passes hand to one another: a word and a slot for
/// each of the six fronts, and then one of each for each strip. The word of a front's direction is
/// twice the number of strips that the front has passed, and 1 more while a pass has the front.
/// That of a strip is 1 while a pass holds it, else 0.
#[derive(Drop)]
pub struct Board {
    pub(crate) table: Table<Slot, View, Plan, HandOver, Global>,
    pub(crate) cut: Cut,
    // Empty, with room for all that `close` gives back.
    pub(crate) parcels: Vec<Parcel>,
    pub(crate) fronts: Vec<Front>,
    ghost planned: { (about_of table.shared.key).cut ≡ cut },
    ghost in_range: { IsCut cut },
    ghost words: { table.shared.table_id.words ≡ word_count cut.strips },
    ghost slots: { table.shared.table_id.slots ≡ word_count cut.strips },
    ghost no_parcel: { vec_len parcels ≡ 0 },
    ghost room: { cut.strips ≤ vec_capacity parcels },
    ghost no_front: { vec_len fronts ≡ 0 },
    ghost front_room: { 6 ≤ vec_capacity fronts },
}
