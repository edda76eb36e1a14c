//! How draws are made.
ghost use Rattle.std.specs.Prelude.{◌≡◌, ◌<◌, ◌≤◌, [], IfOk, vec_len};
ghost use Rattle.sgm_draws.specs.Tickets.{AreNew, count_of, tickets_of};
ghost use Rattle.sgm_draws.specs.Views.{dealer};
ghost use Rattle.sgm_draws.specs.Dealt.{AreDealt};

use crate::draws::Draws;
use crate::limits::{MAX_NUMBERS, MAX_TICKETS};
use crate::rule::{Deal, Drawing, Plan, Shown, TicketSeat};
use crate::ticket::Ticket;
use crate::view::View;
use atomic_table::{Refused, Table};
use std::alloc::{AllocError, Global};

/// The tickets, from a seat that has the numbers of all.
fn deal(
    alloc: Global,
    shown: &Shown,
    mut seat: TicketSeat,
    passes: u32,
) -> Result<Vec<Ticket>, AllocError>
    requires table { (seat.table_id ≡ shown.now.table_id) × (0 < shown.now.table_id.words) }
    requires passes { (0 < passes) × (shown.now.key.passes ≡ passes) }
    requires dealer { seat.me ≡ (dealer shown.now.key.count shown.now.key.passes 0 passes, []) }
    ensures count { IfOk result (λ v. vec_len v ≡ passes) }
    ensures each { IfOk result (λ v. AreDealt shown.now.table_id shown.now.key v.items) }
{
    let mut made = Vec::with_capacity(alloc, passes as usize)?;
    for number in 0..passes - 1 {
        let rest = shown.split_seat::<Deal>(&mut seat);
        made.push_reserved(Ticket { seat, number });
        seat = rest;
    }
    made.push_reserved(Ticket {
        seat,
        number: passes - 1,
    });
    Ok(made)
}

impl Draws {
    /// Draws of the numbers below `count`, with so many tickets, whose numbers are 0, 1 and so on.
    /// At most [`MAX_NUMBERS`] numbers and [`MAX_TICKETS`] tickets.
    pub fn start(alloc: Global, count: u32, passes: u32) -> Result<(Draws, Vec<Ticket>), AllocError>
        requires count { (1 ≤ count) × (count ≤ MAX_NUMBERS) }
        requires passes { (1 ≤ passes) × (passes ≤ MAX_TICKETS) }
        ensures draws { IfOk result (λ made. (count_of made.0 ≡ count)
            × (tickets_of made.0 ≡ passes)) }
        ensures tickets { IfOk result (λ made. vec_len made.1 ≡ passes) }
        ensures new { IfOk result (λ made. AreNew made.0 made.1.items) }
    {
        let plan = Plan { count, passes };
        let slots = Vec::new(alloc);
        let (table, seat) = match Table::<(), View, Plan, Drawing, Global>::new(
            alloc,
            &[0],
            slots,
            &plan,
        ) {
            Ok(made) => made,
            Err(Refused { slots: _ }) => return Err(AllocError),
        };
        let tickets = deal(alloc, &table.shared, seat, passes)?;
        Ok((Draws { table, count }, tickets))
    }
}
