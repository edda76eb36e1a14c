ghost use Rattle.std.specs.Prelude.{ℕ, ◌+◌, ◌≤◌, Bool, ◌==◌, ◌||◌};
ghost use Rattle.sgm_io.specs.Piece.{FillsUpTo};

// The bytes that go in from the length `at` on, if it stops at `stop` too.
pub(crate) fn fill_to(count: usize, at: usize, stop: usize) -> usize
    ensures within { at ≤ stop → at + result ≤ stop }
    ensures less { result ≤ count }
    ensures fills { (stops : ℕ → Bool) (most : ℕ) → FillsUpTo stops at most count
        → FillsUpTo (λ length. stops length || (length == stop)) at most result }
{
    if at <= stop && stop - at < count {
        stop - at
    } else {
        count
    }
}
