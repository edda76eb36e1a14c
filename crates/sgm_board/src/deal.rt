//! How the passes of a board are made.
ghost use Rattle.std.specs.Prelude.{◌≡◌, ◌<◌, [], IfOk, vec_len};
ghost use Rattle.sgm_board.specs.Views.{dealer};
ghost use Rattle.sgm_board.specs.Plans.{about_of};
ghost use Rattle.sgm_board.specs.Dealt.{AreDealt};

use crate::pass::Pass;
use crate::rule::{Deal, PassSeat, Shown};
use std::alloc::{AllocError, Global};

/// The passes, from a seat that has the numbers of all.
pub(crate) fn deal(
    alloc: Global,
    shown: &Shown,
    mut seat: PassSeat,
    passes: u32,
) -> Result<Vec<Pass>, AllocError>
    requires table { (seat.table_id ≡ shown.now.table_id) × (0 < shown.now.table_id.words) }
    requires passes { (0 < passes) × (shown.now.key.passes ≡ passes) }
    requires dealer { seat.me ≡ (dealer (about_of shown.now.key) 0 passes, []) }
    ensures count { IfOk result (λ v. vec_len v ≡ passes) }
    ensures each { IfOk result (λ v. AreDealt shown.now.table_id (about_of shown.now.key) v.items) }
{
    let mut made = Vec::with_capacity(alloc, passes as usize)?;
    for number in 0..passes - 1 {
        let rest = shown.split_seat::<Deal>(&mut seat);
        made.push_reserved(Pass { seat, number });
        seat = rest;
    }
    made.push_reserved(Pass {
        seat,
        number: passes - 1,
    });
    Ok(made)
}
