//! The samples of an image as bytes.

ghost use Rattle.std.specs.Prelude.{◌≡◌, ◌↔◌, ◌+◌, ◌*◌, ◌/◌, ◌<◌, ◌≤◌, ℕ, All, IfOk, IfSome};
ghost use Rattle.std.specs.Prelude.{IsSome, MatchOption, MatchResult, false, length, nat_lt};
ghost use Rattle.std.specs.Prelude.{slice_index};
ghost use Rattle.sgm_base.specs.Picture.{IsPicture, picture};
ghost use Rattle.sgm_pgm.specs.declared.fault.PgmFault.TheVariants.{SampleAbove};
ghost use Rattle.sgm_pgm.specs.Fault.{IsFirstAbove};
ghost use Rattle.sgm_pgm.specs.Raster.{IsMaxval, raster_of, raster_size};
ghost use Rattle.sgm_pgm.specs.Parts.{AnswersBehind};

use crate::fault::{PgmError, PgmFault};
use crate::header::Header;
use crate::limits::MAX_MAXVAL;
use sgm_base::{Image, Size};
use std::alloc::{AllocError, Global};

/// The image of which the header and the bytes behind it tell.
pub fn image_behind(alloc: Global, header: Header, raster: &[u8]) -> Result<Image, PgmError>
    ensures { AnswersBehind header.width header.height header.maxval raster.now result }
{
    let Some(size) = Size::make(header.width, header.height) else {
        return Err(PgmError::Fault(PgmFault::SizeRange));
    };
    let Some(maxval) = in_range(header.maxval) else {
        return Err(PgmError::Fault(PgmFault::MaxvalRange));
    };
    image_of(alloc, size, maxval, raster)
}

/// The image of this size whose samples the bytes begin with.
fn image_of(alloc: Global, size: Size, maxval: u16, raster: &[u8]) -> Result<Image, PgmError>
    requires { IsMaxval maxval }
    ensures { AnswersBehind size.width size.height maxval raster.now result }
{
    let need = bytes_needed(size, maxval);
    if raster.len() < need {
        let have = raster.len();
        return Err(PgmError::Fault(PgmFault::RasterShort { have, need }));
    }
    let samples = samples_of(alloc, size, maxval, &raster[..need])?;
    Ok(checked_image(size, maxval, samples)?)
}

/// The maxval, unless it is outside 1 to 65535.
fn in_range(maxval: u32) -> Option<u16>
    ensures exact { IsSome result ↔ IsMaxval maxval }
    ensures value { IfSome result (λ m. m ≡ maxval) }
{
    if (1..=MAX_MAXVAL).contains(&maxval) {
        Some(maxval as u16)
    } else {
        None
    }
}

/// A sample has one byte, and not two.
fn is_single(maxval: u16) -> bool
    ensures { result ≡ nat_lt maxval 256 }
{
    maxval < 256
}

/// The number of bytes of an image's samples.
fn bytes_needed(size: Size, maxval: u16) -> usize
    ensures { result ≡ raster_size size.width size.height maxval }
{
    if is_single(maxval) {
        size.pixels()
    } else {
        2 * size.pixels()
    }
}

/// The samples whose bytes these are.
fn samples_of(alloc: Global, size: Size, maxval: u16, raster: &[u8]) -> Result<Vec<u16>, AllocError>
    requires { length raster.now ≡ raster_size size.width size.height maxval }
    ensures full { IfOk result (λ samples. length samples.items ≡ size.width * size.height) }
    ensures bytes { IfOk result (λ samples. raster_of maxval samples.items ≡ raster.now) }
{
    if is_single(maxval) {
        single_bytes(alloc, raster)
    } else {
        pairs_of_bytes(alloc, raster)
    }
}

/// Each byte as a sample.
fn single_bytes(alloc: Global, raster: &[u8]) -> Result<Vec<u16>, AllocError>
    ensures { IfOk result (λ samples. samples.items ≡ raster.now) }
{
    let mut samples = vec![in alloc; 0u16; raster.len()]?;
    for index in 0..samples.len() {
        samples[index] = u16::from(raster[index]);
    }
    Ok(samples)
}

/// Each two bytes as a sample, the most significant first.
fn pairs_of_bytes(alloc: Global, raster: &[u8]) -> Result<Vec<u16>, AllocError>
    ensures half { IfOk result (λ samples. length samples.items ≡ length raster.now / 2) }
    ensures each { IfOk result (λ samples. (k : ℕ) → k < length raster.now / 2 →
        slice_index samples.items k
        ≡ 256 * slice_index raster.now (2 * k) + slice_index raster.now (2 * k + 1)) }
{
    let mut samples = vec![in alloc; 0u16; raster.len() / 2]?;
    for index in 0..samples.len() {
        samples[index] = u16::from_be_bytes([raster[2 * index], raster[2 * index + 1]]);
    }
    Ok(samples)
}

/// The image of these samples, unless one of them is above maxval.
fn checked_image(size: Size, maxval: u16, samples: Vec<u16>) -> Result<Image, PgmFault>
    requires maxval { 1 ≤ maxval }
    requires full { length samples.items ≡ size.width * size.height }
    ensures { MatchResult result
        (λ image. (image ≡ picture size.width size.height maxval samples.items) × IsPicture image)
        (λ fault. (index : ℕ) × (fault ≡ SampleAbove index)
        × IsFirstAbove maxval samples.items index) }
{
    if let Some(index) = first_above(maxval, &samples) {
        return Err(PgmFault::SampleAbove { index });
    }
    match Image::make(size, maxval, samples) {
        Some(image) => Ok(image),
        None => unreachable!(),
    }
}

/// Whether a sample is above maxval.
fn has_above(maxval: u16, samples: &[u16]) -> bool
    ensures { result ≡ false → All (λ s. s ≤ maxval) samples.now }
{
    let mut found = false;
    // No way out within, so that many samples are looked at at once.
    for sample in samples {
        found = found | (*sample > maxval);
    }
    found
}

/// The least index of a sample above maxval.
fn first_above(maxval: u16, samples: &[u16]) -> Option<usize>
    ensures { MatchOption result (All (λ s. s ≤ maxval) samples.now)
        (λ index. IsFirstAbove maxval samples.now index) }
{
    if !has_above(maxval, samples) {
        return None;
    }
    for (index, sample) in samples.iter().enumerate() {
        if *sample > maxval {
            return Some(index);
        }
    }
    None
}
