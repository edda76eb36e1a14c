ghost use Rattle.std.specs.Prelude.{◌≡◌, ◌↔◌, IsSome, IfSome};
ghost use Rattle.sgm_base.specs.Disparities.{Disparities, IsCount, IsFirst};

use crate::limits::{MAX_COUNT, MAX_FIRST, MIN_FIRST};
use std::marker::Model;

/// The disparities that are tried: `count` of them from `first` on. The index `d` stands for
/// `first + d`.
#[derive(Clone, Copy, PartialEq, Eq)]
pub struct Span {
    pub first: i32,
    pub count: u32,
}

impl Model for Span {
    ghost Value = { Disparities };

    ghost view = { λ s. record { first = s.first; count = s.count } };

    ghost inverse = { λ s. record { first = s.first; count = s.count } };

    ghost invariant = { λ s. IsFirst s.first × IsCount s.count };
}

impl Span {
    /// None exactly where `first` is outside -1024 to 1024 or `count` outside 1 to 256.
    pub fn make(first: i32, count: u32) -> Option<Span>
        ensures exact { IsSome result ↔ (IsFirst first × IsCount count) }
        ensures made { IfSome result (λ s. s ≡ record { first = first; count = count }) }
    {
        if (MIN_FIRST..=MAX_FIRST).contains(&first) && (1..=MAX_COUNT).contains(&count) {
            Some(Span { first, count })
        } else {
            None
        }
    }
}
