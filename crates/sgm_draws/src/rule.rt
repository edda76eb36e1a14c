//! The rule of the draws' table, and the kinds of step on it.
ghost use Rattle.sgm_draws.specs.Plays.{check_told, draw_told};
ghost use Rattle.sgm_draws.specs.Rules.{Rule};
ghost use Rattle.sgm_draws.specs.Views.{dealer, dealt_view, joined_view, kept_view, spent};

use crate::view::View;
use atomic_table::{Join, Play, Seat, Shared, Split, TableRule};

/// What the rule reads, fixed when a table is made: how many numbers are drawn, and for how many
/// tickets.
#[derive(Clone, Copy)]
pub struct Plan {
    pub count: u32,
    pub passes: u32,
}

pub struct Drawing;

impl TableRule<(), View, Plan> for Drawing {
    ghost holds = { λ plan. Rule plan.count plan.passes };

    // The first ticket has the numbers of all, and deals them out.
    ghost first = { λ plan. dealer plan.count plan.passes 0 plan.passes };
}

/// The table as tickets step on it.
pub(crate) type Shown = Shared<(), View, Plan, Drawing>;

/// What a ticket steps with.
pub(crate) type TicketSeat = Seat<(), View>;

pub struct Deal;

impl Split<View> for Deal {
    ghost left = { kept_view };

    ghost right = { dealt_view };
}

pub struct Gather;

impl Join<View> for Gather {
    ghost both = { joined_view };

    ghost spent = { spent };
}

pub struct Draw;

impl Play<(), View> for Draw {
    ghost then = { draw_told };
}

pub struct Check;

impl Play<(), View> for Check {
    ghost then = { check_told };
}
