//! Whole runs over the larger generated pair.

use super::ended::{held, run_line, shelf_of};
use super::fixtures::{add, files_with};
use sgm_app::pair;
use sgm_base::{Image, Size};
use sgm_example::{CAMERA, END, GRID, REGIONS};
use sgm_io::{MemoryShelf, MemorySink};
use sgm_work::OpenGate;
use std::alloc::{AllocError, Global};
use std::test::Fail;
use std::thread::Threads;

/// The image as a PGM text of one byte a sample, with a comment after the magic.
fn pgm_text(alloc: Global, image: &Image) -> Result<Vec<u8>, AllocError> {
    let Size { width, height } = image.size();
    let header = format!(in alloc; "P5\n# Created by GIMP\n{width} {height}\n255\n")?;
    let mut text = header.into_bytes();
    for sample in image.samples() {
        text.push((*sample).min(255) as u8)?;
    }
    Ok(text)
}

const SETTINGS: &str =
    "{\"version\":1,\"disparities\":{\"first\":0,\"count\":64},\n \"census\":{\"width\":9,\"height\":7},\"penalties\":{\"p1\":10,\"p2\":120}";

/// Adds the text of an image under the name.
fn add_image(
    alloc: Global,
    files: &mut Vec<(String, Vec<u8>)>,
    name: &str,
    image: &Image,
) -> Result<(), AllocError> {
    let text = pgm_text(alloc, image)?;
    add(alloc, files, name, &text)
}

/// Adds both images of a pair.
fn add_images(
    alloc: Global,
    files: &mut Vec<(String, Vec<u8>)>,
    left: &Image,
    right: &Image,
) -> Result<(), AllocError> {
    add_image(alloc, files, "left.pgm", left)?;
    add_image(alloc, files, "right.pgm", right)
}

/// Adds the generated pair of 640 x 480 and the number 7.
fn add_pair(alloc: Global, files: &mut Vec<(String, Vec<u8>)>) -> Result<(), Fail> {
    let size = Size::make(640, 480).ok_or("a size")?;
    let (left, right) = pair(alloc, size, 7)?;
    add_images(alloc, files, &left, &right)?;
    Ok(())
}

/// A shelf with the generated pair and its calibration.
fn pair_shelf(alloc: Global) -> Result<MemoryShelf, Fail> {
    let mut files = files_with(alloc, &[SETTINGS, CAMERA, GRID, REGIONS, END])?;
    add_pair(alloc, &mut files)?;
    let shelf = shelf_of(alloc, files)?;
    Ok(shelf)
}

/// Whether the run of a line over the generated pair is done, with this summary.
fn is_done<R: Threads + Sync>(
    rt: &R,
    alloc: Global,
    line: &str,
    shelf: &mut MemoryShelf,
    summary: &str,
) -> Result<bool, AllocError> {
    let mut out = MemorySink::make(alloc, 4096, None)?;
    let mut err = MemorySink::make(alloc, 4096, None)?;
    let status = run_line(rt, alloc, line, shelf, &mut out, &mut err, &OpenGate)?;
    Ok(status == 0 && err.taken().is_empty() && out.taken() == summary.as_bytes())
}

/// FNV-1a over 64 bits, from the sum of what stands before.
fn sum_on(before: u64, bytes: &[u8]) -> u64 {
    let mut sum = before;
    for byte in bytes {
        sum = (sum ^ u64::from(*byte)).wrapping_mul(0x100_0000_01b3);
    }
    sum
}

/// The sum of the three files, one after the other.
fn sum_of_files(alloc: Global, shelf: &mut MemoryShelf) -> Result<u64, Fail> {
    let mut sum = 0xcbf2_9ce4_8422_2325;
    for name in ["o.pgm", "o.asc", "o.csv"] {
        let file = held(alloc, shelf, name)?.ok_or("a file is absent")?;
        sum = sum_on(sum, &file);
    }
    Ok(sum)
}

/// Whether the run of a line over the generated pair is done, with this summary, and writes files
/// of this sum.
fn writes<R: Threads + Sync>(
    rt: &R,
    alloc: Global,
    line: &str,
    summary: &str,
    sum: u64,
) -> Result<bool, Fail> {
    let mut shelf = pair_shelf(alloc)?;
    Ok(is_done(rt, alloc, line, &mut shelf, summary)? && sum_of_files(alloc, &mut shelf)? == sum)
}

// `tests/large_pair.py` works out both summaries and both sums, apart from the program. Each run is
// a test of its own, since it takes its time.

/// What a plain match prints, and the sum of what it writes.
const PLAIN: (&str, u64) = ("valid 299947 of 307200\n", 0xba9e_fc21_dc40_7359);

/// The same of a match whose peaks are removed and whose gaps are filled.
const REFINED: (&str, u64) = ("valid 307200 of 307200\n", 0xbc32_14d8_60ea_4a54);

#[test]
fn one_strip_and_one_worker(rt: HostRuntime) -> Result<(), Fail> {
    let line = "match left.pgm right.pgm c.json o strips=1 workers=1";
    assert!(rt; writes(&rt, rt.alloc(), line, PLAIN.0, PLAIN.1)?);
    Ok(())
}

#[test]
fn eight_strips_and_four_workers(rt: HostRuntime) -> Result<(), Fail> {
    let line = "match left.pgm right.pgm c.json o strips=8 workers=4";
    assert!(rt; writes(&rt, rt.alloc(), line, PLAIN.0, PLAIN.1)?);
    Ok(())
}

#[test]
fn one_strip_and_one_worker_refined(rt: HostRuntime) -> Result<(), Fail> {
    let line = "match left.pgm right.pgm c.json o strips=1 workers=1 peak=20 fill=1";
    assert!(rt; writes(&rt, rt.alloc(), line, REFINED.0, REFINED.1)?);
    Ok(())
}

#[test]
fn eight_strips_and_four_workers_refined(rt: HostRuntime) -> Result<(), Fail> {
    let line = "match left.pgm right.pgm c.json o strips=8 workers=4 peak=20 fill=1";
    assert!(rt; writes(&rt, rt.alloc(), line, REFINED.0, REFINED.1)?);
    Ok(())
}
