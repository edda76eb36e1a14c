//! Peaks of the worked row. More are stored runs of `sgm_cases`.

use crate::fixtures::map_of;
use sgm_base::{DispMap, MAX_PEAK, Refine, Size};
use sgm_refine::peaks;
use std::alloc::{AllocError, Global};
use std::test::Fail;

/// What is kept of a map.
fn kept_of(alloc: Global, map: &mut DispMap, least: u32) -> Result<Vec<Option<u16>>, Fail> {
    peaks(alloc, map, least)?;
    Ok(map.entries().to_vec(alloc)?)
}

/// What is kept of the map with these entries.
fn kept(
    alloc: Global,
    width: u32,
    height: u32,
    entries: &[Option<u16>],
    least: u32,
) -> Result<Vec<Option<u16>>, Fail> {
    let size = Size::make(width, height).ok_or("size")?;
    let mut map = map_of(alloc, size, entries)?;
    kept_of(alloc, &mut map, least)
}

/// The entries with a `true`, and none at the others.
fn those_that_stay(
    alloc: Global,
    entries: &[Option<u16>],
    stays: &[bool],
) -> Result<Vec<Option<u16>>, AllocError> {
    let mut wanted = Vec::new(alloc);
    for (entry, stays) in entries.iter().zip(stays) {
        wanted.push(if *stays { *entry } else { None })?;
    }
    Ok(wanted)
}

/// Whether exactly the pixels with a `true` keep their disparity.
fn keeps(
    alloc: Global,
    width: u32,
    height: u32,
    entries: &[Option<u16>],
    least: u32,
    stays: &[bool],
) -> Result<bool, Fail> {
    let wanted = those_that_stay(alloc, entries, stays)?;
    let kept = kept(alloc, width, height, entries, least)?;
    Ok(kept.as_slice() == wanted.as_slice())
}

const ROW: [Option<u16>; 5] = [Some(16), Some(16), Some(160), Some(16), Some(16)];

#[test]
fn a_peak_in_a_row(rt: HostRuntime) -> Result<(), Fail> {
    let alloc = rt.alloc();
    assert!(rt; keeps(alloc, 5, 1, &ROW, 0, &[true; 5])?);
    assert!(rt; keeps(alloc, 5, 1, &ROW, 1, &[true; 5])?);
    assert!(rt; keeps(alloc, 5, 1, &ROW, 2, &[true, true, false, true, true])?);
    assert!(rt; keeps(alloc, 5, 1, &ROW, 3, &[false; 5])?);
    // The same in a column.
    assert!(rt; keeps(alloc, 1, 5, &ROW, 2, &[true, true, false, true, true])?);
    Ok(())
}

#[test]
fn the_greatest_peak(rt: HostRuntime) {
    assert!(rt; MAX_PEAK == 4096 * 4096);
    assert!(rt; Refine::make(MAX_PEAK, true).is_some());
    assert!(rt; Refine::make(MAX_PEAK + 1, false).is_none());
    assert!(rt; Refine::PLAIN.peak == 0 && !Refine::PLAIN.fill);
}
