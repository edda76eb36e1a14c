//! The files of the worked example. What the runs are to write is worked by hand.

use sgm_example::{CALIBRATION, LEFT, RIGHT};
use std::alloc::{AllocError, Global};

/// The disparity image: three times the samples 16 16 32 32 32.
pub const DISPARITIES: &[u8] =
    b"P5\n5 3\n65535\n\x00\x10\x00\x10\x00\x20\x00\x20\x00\x20\x00\x10\x00\x10\x00\x20\x00\x20\x00\x20\x00\x10\x00\x10\x00\x20\x00\x20\x00\x20";

pub const HEIGHTS: &[u8] =
    b"ncols 4\nnrows 3\nxllcorner 2000\nyllcorner -2000\ncellsize 1000\nNODATA_value -2147483648\n50000 50000 50000 -2147483648\n50000 50000 50000 -2147483648\n50000 50000 50000 -2147483648\n";

pub const REPORT: &[u8] =
    b"region,cells,empty,fill,cut,lowest,highest\nall,9,3,90000000000,0,50000,50000\neast,0,1,0,0,,\n";

pub const SUMMARY: &[u8] = b"valid 15 of 15\n";

/// The words of a line, one space between two.
pub fn words_of(alloc: Global, line: &str) -> Result<Vec<String>, AllocError> {
    let mut words = Vec::new(alloc);
    for word in line.split(' ') {
        words.push(String::from_str(alloc, word)?)?;
    }
    Ok(words)
}

/// Adds a file of this name and these bytes.
pub fn add(
    alloc: Global,
    files: &mut Vec<(String, Vec<u8>)>,
    name: &str,
    bytes: &[u8],
) -> Result<(), AllocError> {
    let name = String::from_str(alloc, name)?;
    let bytes = bytes.to_vec(alloc)?;
    files.push((name, bytes))?;
    Ok(())
}

/// The parts, one after the other.
pub fn joined(alloc: Global, parts: &[&str]) -> Result<String, AllocError> {
    let mut text = String::new(alloc);
    for part in parts {
        text.push_str(part)?;
    }
    Ok(text)
}

/// Adds a calibration of these parts.
fn add_calibration(
    alloc: Global,
    files: &mut Vec<(String, Vec<u8>)>,
    parts: &[&str],
) -> Result<(), AllocError> {
    let text = joined(alloc, parts)?;
    add(alloc, files, "c.json", text.as_bytes())
}

/// The pair of the worked example, and a calibration of these parts.
pub fn files_with(alloc: Global, calib: &[&str]) -> Result<Vec<(String, Vec<u8>)>, AllocError> {
    let mut files = Vec::new(alloc);
    add(alloc, &mut files, "l.pgm", LEFT)?;
    add(alloc, &mut files, "r.pgm", RIGHT)?;
    add_calibration(alloc, &mut files, calib)?;
    Ok(files)
}

/// The pair of the worked example and its calibration.
pub fn example(alloc: Global) -> Result<Vec<(String, Vec<u8>)>, AllocError> {
    files_with(alloc, &CALIBRATION)
}
