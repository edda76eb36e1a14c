//! The values that are met from each pixel in the eight directions: the first ones on the way
//! against the direction. Those of a row follow from those of the row before.

ghost use Rattle.std.specs.Prelude.{◌≡◌, ℕ, ◌+◌, ◌-◌, ◌*◌, ◌/◌, ◌%◌, ◌^◌, ◌<◌, ◌≤◌, length, map};
ghost use Rattle.std.specs.Prelude.{slice_index_or, None, Some, EachIndex, IfSome};
ghost use Rattle.sgm_energy.specs.declared.dir.Dir.TheVariants.{Right, Left};
ghost use Rattle.sgm_energy.specs.Dirs.{directions};
ghost use Rattle.sgm_energy.specs.Rays.{column_before, pixel_at};
ghost use Rattle.sgm_base.specs.Values.{Values};
ghost use Rattle.sgm_refine.specs.Filling.{met_from};
ghost use Rattle.sgm_refine.specs.Met.{carried_from, HoldsMet, HoldAllMet, HoldMetUpwards};

use sgm_base::DispMap;
use sgm_energy::Dir;

/// The directions that stay in a row.
pub const LEVEL: [Dir; 2] = [Dir::Right, Dir::Left];

/// Those that come from the row above.
pub const DOWNWARDS: [Dir; 3] = [Dir::Down, Dir::DownRight, Dir::DownLeft];

/// Those that come from the row below.
pub const UPWARDS: [Dir; 3] = [Dir::Up, Dir::UpRight, Dir::UpLeft];

/// What is met at the column that the direction comes from: its value, or what is met from there.
fn carried_at(dir: Dir, values: &[Option<u16>], carried: &[Option<u16>], x: usize) -> Option<u16>
    requires column { x < length values.now }
    requires same_length { length carried.now ≡ length values.now }
    ensures { result
        ≡ carried_from values.now carried.now (column_before dir (length values.now) x) }
{
    let q = dir.column_before(values.len(), x)?;
    values[q].or(carried[q])
}

/// Writes what is met from the pixels of a row, of the values of the row that the direction comes
/// from and what is met from there.
fn carry_row(dir: Dir, values: &[Option<u16>], carried: &[Option<u16>], into: &mut [Option<u16>])
    requires values_length { length values.now ≡ length into.old }
    requires carried_length { length carried.now ≡ length into.old }
    ensures { EachIndex into.new (λ x. slice_index_or into.new x None
        ≡ carried_from values.now carried.now (column_before dir (length values.now) x)) }
{
    for x in 0..into.len() {
        into[x] = carried_at(dir, values, carried, x);
    }
}

/// Writes what is met from the pixels of the row `y` on the way to the left.
fn meet_right(map: &DispMap, y: u32, into: &mut [Option<u16>])
    requires row { y < map.now.height }
    requires into_length { length into.old ≡ map.now.width }
    ensures { HoldsMet map.now Right y into.new }
{
    let values = map.row(y);
    let mut last = None;
    for x in 0..into.len() {
        into[x] = last;
        last = values[x].or(last);
    }
}

/// Writes what is met from the pixels of the row `y` on the way to the right.
fn meet_left(map: &DispMap, y: u32, into: &mut [Option<u16>])
    requires row { y < map.now.height }
    requires into_length { length into.old ≡ map.now.width }
    ensures { HoldsMet map.now Left y into.new }
{
    let values = map.row(y);
    let width = into.len();
    let mut last = None;
    for k in 0..width {
        let x = width - 1 - k;
        into[x] = last;
        last = values[x].or(last);
    }
}

/// Writes what is met from the pixels of the row `y` in the two level directions.
pub fn meet_level(map: &DispMap, y: u32, into: &mut [Option<u16>])
    requires row { y < map.now.height }
    requires into_length { length into.old ≡ 2 * map.now.width }
    ensures { HoldAllMet map.now LEVEL y into.new }
{
    let width = map.size().width as usize;
    let (right, left) = into.split_at_mut(width);
    meet_right(map, y, right);
    meet_left(map, y, left);
}

/// Writes what is met from the pixels of the row below `y` in the three downward directions, of
/// what is met from those of the row `y`.
pub fn carry_down(map: &DispMap, y: u32, carried: &[Option<u16>], into: &mut [Option<u16>])
    requires row { y < map.now.height }
    requires carried_length { length carried.now ≡ 3 * map.now.width }
    requires into_length { length into.old ≡ 3 * map.now.width }
    requires carried { HoldAllMet map.now DOWNWARDS y carried.now }
    ensures { y + 1 < map.now.height → HoldAllMet map.now DOWNWARDS (y + 1) into.new }
{
    let values = map.row(y);
    let width = values.len();
    for i in 0..3 {
        let at = i * width;
        let (_, rest) = into.split_at_mut(at);
        let (here, _) = rest.split_at_mut(width);
        carry_row(DOWNWARDS[i], values, &carried[at..at + width], here);
    }
}

/// Writes the row `k` of those that [`meet_upwards`] writes, of the row of the same direction
/// before it.
fn carry_up(map: &DispMap, k: u32, into: &mut [Option<u16>])
    requires later { 3 ≤ k }
    requires row { k < 3 * map.now.height }
    requires whole { length into.old ≡ 3 * map.now.height * map.now.width }
    ensures { HoldMetUpwards map.now UPWARDS k into.old
        → HoldMetUpwards map.now UPWARDS (k + 1) into.new }
{
    let values = map.row(map.size().height - k / 3);
    let width = values.len();
    let at = k as usize * width;
    let (done, rest) = into.split_at_mut(at);
    let (here, _) = rest.split_at_mut(width);
    let carried = &done[at - 3 * width..at - 2 * width];
    carry_row(UPWARDS[k as usize % 3], values, carried, here);
}

/// Writes what is met from all pixels in the three upward directions: three rows for each row of
/// the map, the lowest row first.
pub fn meet_upwards(map: &DispMap, into: &mut [Option<u16>])
    requires whole { length into.old ≡ 3 * map.now.height * map.now.width }
    requires none { EachIndex into.old (λ k. slice_index_or into.old k None ≡ None) }
    ensures { HoldMetUpwards map.now UPWARDS (3 * map.now.height) into.new }
{
    for k in 3..3 * map.size().height {
        carry_up(map, k, into);
    }
}

/// What is met from the pixel of the column `x` in the eight directions, of the rows of level,
/// downward and upward ones.
pub fn met_at(
    level: &[Option<u16>],
    down: &[Option<u16>],
    up: &[Option<u16>],
    x: usize,
    width: usize,
) -> [Option<u16>; 8]
    requires column { x < width }
    requires level_length { length level.now ≡ 2 * width }
    requires down_length { length down.now ≡ 3 * width }
    requires up_length { length up.now ≡ 3 * width }
    ensures { (disparities : Values) (y : ℕ) → disparities.width ≡ width
        → HoldAllMet disparities LEVEL y level.now
        → HoldAllMet disparities DOWNWARDS y down.now → HoldAllMet disparities UPWARDS y up.now
        → result ≡ map (met_from disparities (pixel_at x y)) directions }
{
    [
        level[x],
        level[width + x],
        down[x],
        down[width + x],
        down[2 * width + x],
        up[x],
        up[width + x],
        up[2 * width + x],
    ]
}
