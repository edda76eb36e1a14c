//! Inputs that are refused, and those that can't be read. More are stored cases of `sgm_cases`.

use super::ended::{ends, refused};
use super::fixtures::{add, example, files_with};
use sgm_example::{END, GRID, SETTINGS};
use std::alloc::{AllocError, Global};
use std::test::Fail;

// The worked example, and one file more.
fn with_file(
    alloc: Global,
    name: &str,
    bytes: &[u8],
) -> Result<Vec<(String, Vec<u8>)>, AllocError> {
    let mut files = example(alloc)?;
    add(alloc, &mut files, name, bytes)?;
    Ok(files)
}

#[test]
fn words_and_absent_files_end_a_run(rt: HostRuntime) -> Result<(), Fail> {
    let alloc = rt.alloc();
    let end = refused(2, "sgm: word 1 is also an output\n");
    assert!(rt; ends(&rt, alloc, example(alloc)?, "match o.pgm b - o", end)?);
    let end = refused(4, "sgm: cannot read left\n");
    assert!(rt; ends(&rt, alloc, example(alloc)?, "match none none - o", end)?);
    Ok(())
}

#[test]
fn a_calibration_without_its_camera_is_refused(rt: HostRuntime) -> Result<(), Fail> {
    let end = refused(3, "sgm: calibration: camera is missing\n");
    let files = files_with(rt.alloc(), &[SETTINGS, GRID, END])?;
    assert!(rt; ends(&rt, rt.alloc(), files, "match l.pgm r.pgm c.json o", end)?);
    Ok(())
}

#[test]
fn a_pair_that_does_not_suit_is_refused(rt: HostRuntime) -> Result<(), Fail> {
    let small = b"P5 4 3 255\n\x01\x02\x03\x04\x05\x06\x07\x08\x09\x0a\x0b\x0c";
    let files = with_file(rt.alloc(), "small.pgm", small)?;
    let end = refused(3, "sgm: sizes differ: 5x3 and 4x3\n");
    assert!(rt;
        ends(
            &rt,
            rt.alloc(),
            files,
            "match l.pgm small.pgm c.json o",
            end
        )?
    );
    Ok(())
}

// The file big.pgm: this header, and bytes 7 up to the length.
fn even_file(
    alloc: Global,
    header: &str,
    length: usize,
) -> Result<Vec<(String, Vec<u8>)>, AllocError> {
    let mut bytes = header.as_bytes().to_vec(alloc)?;
    bytes.resize(length, 7)?;
    with_file(alloc, "big.pgm", &bytes)
}

#[test]
fn a_volume_that_is_too_large_is_refused(rt: HostRuntime) -> Result<(), Fail> {
    let alloc = rt.alloc();
    let files = even_file(alloc, "P5 4096 4096 255\n", 17 + 16_777_216)?;
    let end = refused(3, "sgm: volume of 1073741824 cells is above 268435456\n");
    assert!(rt; ends(&rt, alloc, files, "match big.pgm big.pgm - o", end)?);
    Ok(())
}

#[test]
fn an_input_that_is_too_long_is_refused(rt: HostRuntime) -> Result<(), Fail> {
    let alloc = rt.alloc();
    let files = even_file(alloc, "", 67_108_865)?;
    let end = refused(3, "sgm: left is too long\n");
    assert!(rt; ends(&rt, alloc, files, "match big.pgm r.pgm - o", end)?);
    Ok(())
}
