//! The rule of a board's table, and the kinds of step on it.
ghost use Rattle.sgm_board.specs.Shows.{Rule};
ghost use Rattle.sgm_board.specs.Plans.{about_of};
ghost use Rattle.sgm_board.specs.Views.{dealer, kept_view, dealt_view, joined_view, spent};
ghost use Rattle.sgm_board.specs.Plays.{look_told, read_told, claim_told, return_told, take_told};
ghost use Rattle.sgm_board.specs.Plays.{put_told};

use crate::slot::Slot;
use crate::view::View;
use atomic_table::{Join, Play, Seat, Shared, Split, TableRule};
use sgm_strip::Parcel;
use std::snapshot::Snapshot;

/// What the rule reads, fixed when a table is made: a parcel of the board's scene and cut, and how
/// many passes are made.
#[derive(Drop)]
pub struct Plan {
    pub sample: Snapshot<Parcel>,
    pub passes: u32,
}

pub struct HandOver;

impl TableRule<Slot, View, Plan> for HandOver {
    ghost holds = { λ plan. Rule (about_of plan) plan.passes };

    // The first pass has the numbers of all, and deals them out.
    ghost first = { λ plan. dealer (about_of plan) 0 plan.passes };
}

/// The table as passes step on it.
pub(crate) type Shown = Shared<Slot, View, Plan, HandOver>;

/// What a pass steps with.
pub(crate) type PassSeat = Seat<Slot, View>;

pub struct Deal;

impl Split<View> for Deal {
    ghost left = { kept_view };

    ghost right = { dealt_view };
}

pub struct Gather;

impl Join<View> for Gather {
    ghost both = { joined_view };

    ghost spent = { spent };
}

pub struct Look;

impl Play<Slot, View> for Look {
    ghost then = { look_told };
}

pub struct Read;

impl Play<Slot, View> for Read {
    ghost then = { read_told };
}

pub struct Claim;

impl Play<Slot, View> for Claim {
    ghost then = { claim_told };
}

pub struct Return;

impl Play<Slot, View> for Return {
    ghost then = { return_told };
}

pub struct Take;

impl Play<Slot, View> for Take {
    ghost then = { take_told };
}

pub struct Put;

impl Play<Slot, View> for Put {
    ghost then = { put_told };
}
