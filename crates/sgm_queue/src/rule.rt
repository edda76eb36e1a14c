//! The rule of a queue, and the kinds of step on it.
use crate::log::Log;
use crossbeam_queue::protocol::{Join, Lesson, Outcome, Protocol, Split};

pub struct EachOnce;

impl<T> Protocol<T, Log<T>> for EachOnce {
    ghost use Rattle.sgm_queue.specs.Logs.{first};
    ghost use Rattle.sgm_queue.specs.Rules.{Rule};

    ghost holds = { Rule };

    ghost first = { first };
}

pub struct Share;

impl<T> Split<Log<T>> for Share {
    ghost use Rattle.sgm_queue.specs.Logs.{given, kept};

    ghost left = { kept };

    ghost right = { given };
}

pub struct Gather;

impl<T> Join<Log<T>> for Gather {
    ghost use Rattle.sgm_queue.specs.Logs.{joined, spent};

    ghost both = { joined };

    ghost spent = { spent };
}

pub struct Push;

impl<T> Outcome<T, Log<T>> for Push {
    ghost use Rattle.std.specs.Prelude.{◌≡◌};
    ghost use Rattle.sgm_queue.specs.Logs.{after_push};

    ghost then = { λ v x w. w ≡ after_push v x };
}

impl<T> Lesson<T, Log<T>> for Push {
    ghost use Rattle.sgm_queue.specs.Rules.{Known};

    ghost fact = { Known };
}

pub struct Pop;

impl<T> Outcome<T, Log<T>> for Pop {
    ghost use Rattle.sgm_queue.specs.Rules.{PopTold};

    ghost then = { PopTold };
}

impl<T> Lesson<T, Log<T>> for Pop {
    ghost use Rattle.sgm_queue.specs.Rules.{Known};

    ghost fact = { Known };
}
