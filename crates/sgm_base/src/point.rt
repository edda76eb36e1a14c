ghost use Rattle.std.specs.Prelude.{◌≡◌, ◌^◌, pos, ◌<ℤ◌, ◌≤ℤ◌, ◌-ℤ◌};
ghost use Rattle.sgm_base.specs.Rounding.{rounded};

/// A point in space. `x` to the right, `y` to the north, `h` upwards from the datum, all in
/// micrometres.
#[derive(Clone, Copy, PartialEq, Eq)]
pub struct Point {
    pub x: i64,
    pub y: i64,
    pub h: i64,
}

/// `a / b` rounded to the nearest whole number, halves upwards: floor((2a + b) / (2b)).
pub fn round_div(a: i128, b: i128) -> i128
    requires positive { pos 0 <ℤ b }
    requires a_low { (pos 0 -ℤ pos (2 ^ 120)) ≤ℤ a }
    requires a_high { a ≤ℤ pos (2 ^ 120) }
    requires b_high { b ≤ℤ pos (2 ^ 120) }
    ensures { result ≡ rounded a b }
{
    (2 * a + b).div_euclid(2 * b)
}
