//! Filling: the worked rows. More are stored runs of `sgm_cases`.

ghost use Rattle.std.specs.Prelude.{◌≡◌, ◌||◌, ◌==◌, IfOk, unwrap_or};
ghost use Rattle.std.specs.List.{list_all};

use crate::fixtures::map_of;
use sgm_base::{DispMap, Plane, Size, Span};
use sgm_refine::fill;
use std::alloc::Global;
use std::test::Fail;

/// Whether all matches are of the indices 0 and 1, in sixteenths.
fn are_indices(entries: &[Option<u16>]) -> bool
    ensures { result
        ≡ list_all (λ entry. (unwrap_or entry 0 == 0) || (unwrap_or entry 0 == 16)) entries.now }
{
    entries.iter().all(|entry| entry.unwrap_or(0) == 0 || entry.unwrap_or(0) == 16)
}

fn plane_of(alloc: Global, size: Size, entries: &[Option<u16>]) -> Result<Plane, Fail>
    ensures { IfOk result (λ m. (m.width ≡ size.width) × (m.height ≡ size.height)) }
{
    Ok(Plane::make(size, entries.to_vec(alloc)?).ok_or("left")?)
}

/// What becomes of a map whose matches are of the indices 0 and 1.
fn entries_of(
    alloc: Global,
    map: &DispMap,
    matched: &DispMap,
    left: &Plane,
) -> Result<Vec<Option<u16>>, Fail>
    requires matched { (matched.now.width ≡ map.now.width) × (matched.now.height ≡ map.now.height) }
    requires left { (left.now.width ≡ map.now.width) × (left.now.height ≡ map.now.height) }
{
    if !are_indices(matched.entries()) {
        return Err("indices")?;
    }
    let filled = fill(alloc, map, matched, left, Span { first: 0, count: 2 })?;
    Ok(filled.entries().to_vec(alloc)?)
}

/// What becomes of the row of three pixels with these entries.
fn filled(
    alloc: Global,
    entries: &[Option<u16>],
    matched: &[Option<u16>],
    left: &[Option<u16>],
) -> Result<Vec<Option<u16>>, Fail> {
    let size = Size::make(3, 1).ok_or("size")?;
    let map = map_of(alloc, size, entries)?;
    let matched = map_of(alloc, size, matched)?;
    let left = plane_of(alloc, size, left)?;
    entries_of(alloc, &map, &matched, &left)
}

/// Whether the row with these entries becomes the wanted one.
fn fills(
    alloc: Global,
    entries: &[Option<u16>],
    matched: &[Option<u16>],
    left: &[Option<u16>],
    wanted: &[Option<u16>],
) -> Result<bool, Fail> {
    let made = filled(alloc, entries, matched, left)?;
    Ok(made.as_slice() == wanted)
}

const GAP: [Option<u16>; 3] = [Some(32), None, Some(96)];

const THERE: [Option<u16>; 3] = [Some(5); 3];

/// Whether a gap of one pixel with these matches is filled by this value.
fn fills_gap(alloc: Global, matched: [Option<u16>; 3], value: u16) -> Result<bool, Fail> {
    let wanted = [Some(32), Some(value), Some(96)];
    fills(alloc, &GAP, &matched, &THERE, &wanted)
}

#[test]
fn one_pixel(rt: HostRuntime) -> Result<(), Fail> {
    let alloc = rt.alloc();
    assert!(rt; fills_gap(alloc, [None; 3], 96)?);
    assert!(rt; fills_gap(alloc, [None, Some(0), None], 32)?);
    // A match whose index gives another pixel.
    assert!(rt; fills_gap(alloc, [None, Some(16), None], 96)?);
    assert!(rt; fills_gap(alloc, [Some(16), None, None], 32)?);
    Ok(())
}

#[test]
fn one_value(rt: HostRuntime) -> Result<(), Fail> {
    let alloc = rt.alloc();
    let none = [None; 3];
    let one = [Some(32), None, None];
    assert!(rt; fills(alloc, &one, &none, &THERE, &[Some(32); 3])?);
    assert!(rt; fills(alloc, &none, &none, &THERE, &none)?);
    let void = [Some(5), None, Some(5)];
    assert!(rt; fills(alloc, &GAP, &none, &void, &GAP)?);
    Ok(())
}
