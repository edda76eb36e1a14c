ghost use Rattle.std.specs.Prelude.{◌≡◌, ◌<◌, IfSome};
ghost use Rattle.sgm_draws.specs.Tickets.{AreNew, IsTicketOf, count_of, parts_of};

use sgm_draws::{Draws, Ticket};
use std::alloc::{AllocError, Global};
use std::test::Fail;

/// The last of new tickets.
fn last_of(draws: &Draws, tickets: &mut Vec<Ticket>) -> Option<Ticket>
    requires { AreNew draws.now tickets.old.items }
    ensures own { IfSome result (IsTicketOf draws.now) }
    ensures unused { IfSome result (λ ticket. (parts_of ticket).seen ≡ 0) }
    ensures rest { AreNew draws.now tickets.new.items }
{
    let _draws = draws;
    tickets.pop()
}

/// Draws until none is left, or so often, and tells what was drawn.
fn draw_on(
    alloc: Global,
    draws: &Draws,
    ticket: &mut Ticket,
    most: u32,
) -> Result<Vec<u32>, AllocError>
    requires own { IsTicketOf draws.now ticket.old }
    requires below { (parts_of ticket.old).seen < count_of draws.now }
    ensures own { IsTicketOf draws.now ticket.new }
{
    let mut drawn = Vec::new(alloc);
    for _draw in 0..most {
        match draws.draw(ticket) {
            Some(number) => drawn.push(number)?,
            None => return Ok(drawn),
        }
    }
    Ok(drawn)
}

/// Both tickets draw, the first one once and then the second one all the rest.
fn draw_in_turn(
    alloc: Global,
    draws: &Draws,
    mut first: Ticket,
    mut second: Ticket,
) -> Result<(Vec<u32>, Vec<u32>), AllocError>
    requires first { IsTicketOf draws.now first × ((parts_of first).seen < count_of draws.now) }
    requires second { IsTicketOf draws.now second × ((parts_of second).seen < count_of draws.now) }
{
    let one = draw_on(alloc, draws, &mut first, 1)?;
    let others = draw_on(alloc, draws, &mut second, 9)?;
    draws.join(&mut first, second);
    Ok((one, others))
}

#[test]
fn one_ticket_draws_each_number_once(rt: HostRuntime) -> Result<(), Fail> {
    let (draws, mut tickets) = Draws::start(rt.alloc(), 3, 1)?;
    let Some(mut ticket) = last_of(&draws, &mut tickets) else {
        panic!(rt; "one ticket was asked for")
    };
    assert!(rt; ticket.number() == 0);
    assert!(rt; draws.count() == 3);
    let drawn = draw_on(rt.alloc(), &draws, &mut ticket, 9)?;
    assert!(rt; drawn.as_slice() == [0, 1, 2].as_slice());
    Ok(())
}

#[test]
fn two_tickets_draw_different_numbers(rt: HostRuntime) -> Result<(), Fail> {
    let (draws, mut tickets) = Draws::start(rt.alloc(), 8, 2)?;
    let (Some(second), Some(first)) = (last_of(&draws, &mut tickets), last_of(&draws, &mut tickets))
    else {
        panic!(rt; "two tickets were asked for")
    };
    assert!(rt; (first.number(), second.number()) == (0, 1));
    let (one, others) = draw_in_turn(rt.alloc(), &draws, first, second)?;
    assert!(rt; one.as_slice() == [0].as_slice());
    assert!(rt; others.as_slice() == [1, 2, 3, 4, 5, 6, 7].as_slice());
    Ok(())
}
