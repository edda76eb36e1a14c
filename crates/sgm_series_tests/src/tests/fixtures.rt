//! The files of the worked series. What it is to write is worked by hand.

use sgm_example::{CALIBRATION, LEFT, RIGHT};
use std::alloc::{AllocError, Global};

/// The worked example, and its pair under the plain calibration.
pub const LIST: &[u8] = b"l.pgm r.pgm c.json o\nl.pgm r.pgm - p\n";

/// Three entries, the last of them as the first.
pub const THREE: &[u8] = b"l.pgm r.pgm c.json o\nl.pgm r.pgm - p\nl.pgm r.pgm c.json q\n";

/// The disparity image of the example: three times the samples 16 16 32 32 32.
pub const DISPARITIES: &[u8] =
    b"P5\n5 3\n65535\n\x00\x10\x00\x10\x00\x20\x00\x20\x00\x20\x00\x10\x00\x10\x00\x20\x00\x20\x00\x20\x00\x10\x00\x10\x00\x20\x00\x20\x00\x20";

pub const HEIGHTS: &[u8] =
    b"ncols 4\nnrows 3\nxllcorner 2000\nyllcorner -2000\ncellsize 1000\nNODATA_value -2147483648\n50000 50000 50000 -2147483648\n50000 50000 50000 -2147483648\n50000 50000 50000 -2147483648\n";

pub const REPORT: &[u8] =
    b"region,cells,empty,fill,cut,lowest,highest\nall,9,3,90000000000,0,50000,50000\neast,0,1,0,0,,\n";

/// Under the plain calibration there is one disparity, 0, and its sample is 16.
pub const PLAIN: &[u8] =
    b"P5\n5 3\n65535\n\x00\x10\x00\x10\x00\x10\x00\x10\x00\x10\x00\x10\x00\x10\x00\x10\x00\x10\x00\x10\x00\x10\x00\x10\x00\x10\x00\x10\x00\x10";

pub const SUMMARY: &[u8] = b"valid 15 of 15\n";

pub const BOTH_SUMMARIES: &[u8] = b"valid 15 of 15\nvalid 15 of 15\n";

pub const SUMMARIES_OF_THREE: &[u8] = b"valid 15 of 15\nvalid 15 of 15\nvalid 15 of 15\n";

/// An image of 4 x 3 pixels.
const NARROW: &[u8] = b"P5\n4 3\n255\n\x0a\x32\x14\x28\x0a\x32\x14\x28\x0a\x32\x14\x28";

/// A file of this name and these bytes.
pub fn file(alloc: Global, name: &str, bytes: &[u8]) -> Result<(String, Vec<u8>), AllocError> {
    Ok((String::from_str(alloc, name)?, bytes.to_vec(alloc)?))
}

/// The files of the worked example, an image of another size, and a list.
pub fn files_with(alloc: Global, list: &[u8]) -> Result<Vec<(String, Vec<u8>)>, AllocError> {
    let mut text = String::new(alloc);
    for part in CALIBRATION {
        text.push_str(part)?;
    }
    let mut files = Vec::new(alloc);
    files.push(file(alloc, "l.pgm", LEFT)?)?;
    files.push(file(alloc, "r.pgm", RIGHT)?)?;
    files.push(file(alloc, "s.pgm", NARROW)?)?;
    files.push(file(alloc, "c.json", text.as_bytes())?)?;
    files.push(file(alloc, "list", list)?)?;
    Ok(files)
}

/// The words of a line, one space between two.
pub fn words_of(alloc: Global, line: &str) -> Result<Vec<String>, AllocError> {
    let mut words = Vec::new(alloc);
    for word in line.split(' ') {
        words.push(String::from_str(alloc, word)?)?;
    }
    Ok(words)
}
