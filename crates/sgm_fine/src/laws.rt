//! What follows from the definitions alone. Each function is a law: its clauses speak of all
//! numbers and samples of windows, and its body is empty.

ghost use Rattle.std.specs.Prelude.{◌≡◌, ℕ, ◌-◌, ◌<◌, List, ◌++◌, slice_index, ℤ, pos, neg_ℤ, ◌+ℤ◌};
ghost use Rattle.std.specs.Prelude.{◌*ℤ◌, ◌≤ℤ◌};
ghost use Rattle.std.specs.List.{All};
ghost use Rattle.sgm_fine.specs.Samples.{Centre, half, lefts, rights};
ghost use Rattle.sgm_fine.specs.Scores.{covariance};
ghost use Rattle.sgm_fine.specs.Small.{halvings, least, small, small_left, small_right};

/// How the numbers of two windows vary together is bounded by how each varies by itself: the square
/// of their covariance is at most the product of the two covariances of the one and of the other
/// with itself, neither of which is negative.
pub fn explained()
    ensures own { (f : ℕ → ℤ) → pos 0 ≤ℤ covariance f f }
    ensures most { (f g : ℕ → ℤ)
        → (covariance f g *ℤ covariance f g) ≤ℤ (covariance f f *ℤ covariance g g) }
{}

/// Samples that are all below the limit are not halved: each is made small by taking off the least,
/// and nothing else. So it is in a pixel's window, on the left where all samples there are below
/// 256, and on the right where all samples at the three offsets are below 4096.
pub fn nothing_lost()
    ensures none { (limit : ℕ) (samples : List ℕ) → All (λ v. v < limit) samples
        → halvings limit samples ≡ 0 }
    ensures whole { (limit : ℕ) (all samples : List ℕ) (k : ℕ) → All (λ v. v < limit) all
        → small limit all samples k ≡ pos (slice_index samples k - least all) }
    ensures left { (c : Centre) (k : ℕ) → All (λ v. v < 256) (lefts c)
        → small_left c k ≡ pos (slice_index (lefts c) k - least (lefts c)) }
    ensures right { (c : Centre) (offset : ℤ) (k : ℕ) → All (λ v. v < 4096) (rights c half)
        → All (λ v. v < 4096) (rights c (pos 0)) → All (λ v. v < 4096) (rights c (neg_ℤ half))
        → small_right c offset k ≡
        pos (slice_index (rights c offset) k - least
        (rights c half ++ rights c (pos 0) ++ rights c (neg_ℤ half))) }
{}

/// A covariance is the same from either side, and a constant that is added to all numbers of a
/// window does not change it.
pub fn shifted()
    ensures turned { (f g : ℕ → ℤ) → covariance f g ≡ covariance g f }
    ensures moved { (f g : ℕ → ℤ) (c : ℤ) → covariance (λ k. f k +ℤ c) g ≡ covariance f g }
{}

/// Numbers so many times as great have a covariance so many times as great.
pub fn stretched()
    ensures { (f g : ℕ → ℤ) (c : ℤ) → covariance f (λ k. c *ℤ g k) ≡ c *ℤ covariance f g }
{}
