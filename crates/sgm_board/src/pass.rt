//! What a worker steps with.
ghost use Rattle.std.specs.Prelude.{◌≡◌};
ghost use Rattle.sgm_board.specs.Views.{IsLive};
ghost use Rattle.sgm_board.specs.Pockets.{ReadsAll, pocket};

use crate::rule::PassSeat;

/// A pass to a board. It holds at most one strip, and has at most one front.
#[derive(Drop)]
pub struct Pass {
    pub(crate) seat: PassSeat,
    pub(crate) number: u32,
    ghost numbered: { seat.me.0.number ≡ number },
    ghost alive: { IsLive seat.me.0 },
    ghost read: { ReadsAll seat.me.0 },
    ghost slots: { seat.me.1 ≡ pocket seat.me.0.strip seat.me.0.front },
}

impl Pass {
    ghost use Rattle.sgm_board.specs.Boards.{parts_of};

    /// The number of the pass, from 0 on. No two passes of a board have the same.
    pub fn number(&self) -> u32
        ensures { result ≡ (parts_of self.now).number }
    {
        self.number
    }
}
