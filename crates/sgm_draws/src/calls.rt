//! The calls on draws. None of them takes memory or waits.
ghost use Rattle.std.specs.Prelude.{◌≡◌, ℕ, ◌<◌, ◌≤◌, IfNone, IfSome};
ghost use Rattle.sgm_draws.specs.Numbers.{IsEachOnce};
ghost use Rattle.sgm_draws.specs.Tickets.{HasAll, IsTicketOf, after_draw, after_end, count_of};
ghost use Rattle.sgm_draws.specs.Tickets.{joined, parts_of, tickets_of};

use crate::draws::Draws;
use crate::rule::{Check, Draw, Gather};
use crate::ticket::Ticket;

impl Draws {
    /// The number of numbers that are drawn.
    pub fn count(&self) -> u32
        ensures { result ≡ count_of self.now }
    {
        self.count
    }

    /// Draws a number, which nobody else draws: the value that the word had at this step, where it
    /// was below the count. None only where it was not; once a ticket that has gathered the numbers
    /// of all tickets is answered so, it has drawn the numbers below the count, each once.
    pub fn draw(&self, ticket: &mut Ticket) -> Option<u32>
        requires own { IsTicketOf self.now ticket.old }
        requires below { (parts_of ticket.old).seen < count_of self.now }
        ensures own { IsTicketOf self.now ticket.new }
        ensures some { IfSome result (λ number. (number < count_of self.now)
            × (parts_of ticket.new ≡ after_draw (parts_of ticket.old) number)) }
        ensures none { IfNone result ((found : ℕ) × (count_of self.now ≤ found)
            × (parts_of ticket.new ≡ after_end (parts_of ticket.old) found)) }
        ensures all { IfNone result (HasAll (tickets_of self.now) (parts_of ticket.new)
            → IsEachOnce (count_of self.now) (parts_of ticket.new).drawn) }
    {
        let found = self.table.shared.fetch_add::<Draw>(&mut ticket.seat, 0, 1);
        if found < u64::from(self.count) {
            Some(found as u32)
        } else {
            None
        }
    }

    /// Gives a ticket what another has drawn and gathered. Where it has then gathered the numbers
    /// of all tickets, and one of the two saw the end, it has drawn the numbers below the count,
    /// each once.
    pub fn join(&self, ticket: &mut Ticket, other: Ticket)
        requires own { IsTicketOf self.now ticket.old }
        requires other { IsTicketOf self.now other }
        ensures own { IsTicketOf self.now ticket.new }
        ensures joined { parts_of ticket.new ≡ joined (parts_of ticket.old) (parts_of other) }
        ensures all { HasAll (tickets_of self.now) (parts_of ticket.new)
            → count_of self.now ≤ (parts_of ticket.new).seen
            → IsEachOnce (count_of self.now) (parts_of ticket.new).drawn }
    {
        let Ticket { seat, number: _ } = other;
        self.table
            .shared
            .join_seat::<Gather>(&mut ticket.seat, seat);
        // Known from here on: what the table's rule says of a ticket that has gathered all.
        self.table.shared.load::<Check>(&mut ticket.seat, 0);
    }
}
