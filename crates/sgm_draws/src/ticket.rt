//! What a thread draws with.
ghost use Rattle.std.specs.Prelude.{◌≡◌, []};

use crate::rule::TicketSeat;

/// A ticket to draw numbers. It has those that it has drawn.
#[derive(Drop)]
pub struct Ticket {
    pub(crate) seat: TicketSeat,
    pub(crate) number: u32,
    ghost numbered: { seat.me.0.number ≡ number },
    ghost no_slot: { seat.me.1 ≡ [] },
}

impl Ticket {
    ghost use Rattle.sgm_draws.specs.Tickets.{parts_of};

    /// The number of the ticket, from 0 on. No two tickets of the same draws have the same.
    pub fn number(&self) -> u32
        ensures { result ≡ (parts_of self.now).number }
    {
        self.number
    }
}
