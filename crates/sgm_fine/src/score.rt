//! The score of a place.

ghost use Rattle.std.specs.Prelude.{◌≡◌, ◌<◌, ◌*◌, ◌==◌, nat_lt, option_map, unwrap_or};
ghost use Rattle.sgm_base.specs.Ranges.{Within};

use crate::scores::Fit;

/// The score of a place before it is divided out: the square of how both windows' numbers vary
/// together, over the 256th part of how the right ones vary.
#[derive(Clone, Copy)]
pub(crate) struct Score {
    square: u64,
    part: u64,
    ghost some: { 0 < part },
}

/// The product of two numbers.
#[inline]
fn wide(a: u64, b: u64) -> u128
    ensures { result ≡ a * b }
{
    u128::from(a) * u128::from(b)
}

impl Score {
    ghost use Rattle.sgm_fine.specs.Scores.{divided, score};

    /// The score 0.
    #[inline]
    pub(crate) fn zero() -> Score
        ensures { divided result ≡ 0 }
    {
        Score { square: 0, part: 1 }
    }

    /// The score of a fit, none where it is 0 because both windows' numbers don't vary together, or
    /// the right ones hardly vary.
    #[inline]
    pub(crate) fn of(fit: Fit) -> Option<Score>
        requires { Within 2506140000 fit.together }
        ensures { unwrap_or (option_map divided result) 0 ≡ score fit.together fit.right }
    {
        if fit.together <= 0 || fit.right < 256 {
            return None;
        }
        let together = fit.together as u64;
        Some(Score {
            square: together * together,
            part: fit.right as u64 / 256,
        })
    }

    /// Whether a score is 0.
    #[inline]
    pub(crate) fn is_zero(self) -> bool
        ensures { result ≡ (divided self == 0) }
    {
        self.square < self.part
    }

    /// Whether a score is greater than another one. Nearly always products tell that, and nothing
    /// is divided.
    #[inline]
    pub(crate) fn is_greater(self, other: Score) -> bool
        ensures { result ≡ nat_lt (divided other) (divided self) }
    {
        let mine = wide(self.square, other.part);
        let others = wide(other.square, self.part);
        if mine <= others {
            return false;
        }
        if wide(self.part, other.part) <= mine - others {
            return true;
        }
        other.square / other.part < self.square / self.part
    }
}
