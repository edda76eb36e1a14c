//! The mean of the values around a pixel that lie near its own.

ghost use Rattle.std.specs.Prelude.{◌≡◌, ◌+◌, ◌*◌, ◌^◌, ◌<◌, ◌≤◌, IsTrue, EachIndex, length, sum};
ghost use Rattle.std.specs.Prelude.{option_map, slice_index_or, None, Some};
ghost use Rattle.sgm_base.specs.Values.{value_at};
ghost use Rattle.sgm_fine.specs.Means.{mean_value, near, near_at};

use crate::around::Field;
use crate::slopes::step_to;
use sgm_base::DispMap;

/// The greatest step to a value that still counts, in sixteenths.
pub(crate) const REACH: u16 = 16;

/// The sum of some values, and how many they are.
#[derive(Clone, Copy)]
struct Tally {
    sum: u32,
    number: u32,
}

/// The value of the place `k` of the square of three by three around (x, y), where it lies near
/// `m`. INSIDE says that all of the square lies inside, so that nothing tests the edges.
#[inline]
fn near_value<const INSIDE: bool>(map: &Field, x: usize, y: usize, m: u16, k: usize) -> Option<u16>
    requires pixel { (x < 2 ^ 15) × (y < 2 ^ 15) }
    requires place { k < 9 }
    requires columns { IsTrue INSIDE → (1 ≤ x) × (x + 1 < map.now.width) }
    requires rows { IsTrue INSIDE → (1 ≤ y) × (y + 1 < map.now.height) }
    ensures { result ≡ near_at map.now x y m k }
{
    let value = if INSIDE {
        map.inner(x + k % 3 - 1, y + k / 3 - 1)?
    } else {
        map.around(1, x, y, k % 3, k / 3)?
    };
    match step_to(REACH, m, Some(value)) {
        Some(_) => Some(value),
        None => None,
    }
}

/// Those of the values around (x, y) that lie near its own, `m`.
fn tally_near<const INSIDE: bool>(map: &Field, x: usize, y: usize, m: u16) -> Tally
    requires pixel { (x < 2 ^ 15) × (y < 2 ^ 15) }
    requires value { value_at map.now x y ≡ Some m }
    requires columns { IsTrue INSIDE → (1 ≤ x) × (x + 1 < map.now.width) }
    requires rows { IsTrue INSIDE → (1 ≤ y) × (y + 1 < map.now.height) }
    ensures sum { result.sum ≡ sum (near map.now x y m) }
    ensures number { result.number ≡ length (near map.now x y m) }
    ensures some { (0 < result.number) × (result.number ≤ 9) }
    ensures most { result.sum ≤ 65535 * result.number }
{
    let mut tally = Tally { sum: 0, number: 0 };
    for k in 0..9 {
        if let Some(value) = near_value::<INSIDE>(map, x, y, m, k) {
            tally.sum += u32::from(value);
            tally.number += 1;
        }
    }
    tally
}

/// The mean of the values around (x, y) that lie near its own, `m`.
pub(crate) fn mean_at(map: &Field, x: usize, y: usize, m: u16) -> u16
    requires pixel { (x < 2 ^ 15) × (y < 2 ^ 15) }
    requires value { value_at map.now x y ≡ Some m }
    ensures { result ≡ mean_value map.now x y m }
{
    let Tally { sum, number } = if map.has_square(1, x, y) {
        tally_near::<true>(map, x, y, m)
    } else {
        tally_near::<false>(map, x, y, m)
    };
    ((2 * sum + number) / (2 * number)) as u16
}

/// Writes the means of the row `y` of a map.
pub fn mean_row(map: &DispMap, y: u32, into: &mut [Option<u16>])
    requires row { y < map.now.height }
    requires into_length { length into.old ≡ map.now.width }
    ensures { EachIndex into.new
        (λ x. slice_index_or into.new x None
        ≡ option_map (mean_value map.now x y) (value_at map.now x y)) }
{
    let values = map.row(y);
    let field = Field::of_map(map);
    for x in 0..into.len() {
        into[x] = match values[x] {
            None => None,
            Some(m) => Some(mean_at(&field, x, y as usize, m)),
        };
    }
}
