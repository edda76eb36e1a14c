//! The files of the worked example.

use crate::escapes::unescaped;
use sgm_example::{CALIBRATION, LEFT, RIGHT};
use std::alloc::{AllocError, Global};

/// A file of that name, with the bytes that the text stands for.
pub fn file(alloc: Global, name: &str, text: &str) -> Result<(String, Vec<u8>), AllocError> {
    Ok((String::from_str(alloc, name)?, unescaped(alloc, text)?))
}

/// A file of that name, with those bytes.
fn held(alloc: Global, name: &str, bytes: &[u8]) -> Result<(String, Vec<u8>), AllocError> {
    Ok((String::from_str(alloc, name)?, bytes.to_vec(alloc)?))
}

fn calibration(alloc: Global) -> Result<String, AllocError> {
    let mut text = String::new(alloc);
    for part in CALIBRATION {
        text.push_str(part)?;
    }
    Ok(text)
}

/// Its images and its calibration.
pub fn files(alloc: Global) -> Result<Vec<(String, Vec<u8>)>, AllocError> {
    let text = calibration(alloc)?;
    let mut files = Vec::new(alloc);
    files.push(held(alloc, "l.pgm", LEFT)?)?;
    files.push(held(alloc, "r.pgm", RIGHT)?)?;
    files.push(held(alloc, "c.json", text.as_bytes())?)?;
    Ok(files)
}
