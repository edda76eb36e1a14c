ghost use Rattle.std.specs.Prelude.{◌≡◌, ◌≤◌, ◌*◌, ◌/◌, ◌%◌, ◌^◌, All, IfOk};
ghost use Rattle.sgm_base.specs.Values.{row_by_row};
ghost use Rattle.sgm_base.specs.declared.side.Side.{Side};
ghost use Rattle.sgm_stages.specs.Pair.{grey, shift, pair_sample, pair_image};

use sgm_base::{Image, MAX_SIDE, Side, Size};
use std::alloc::{AllocError, Global};

// A number below 256 for a place, which looks like chance.
fn grey(number: u32, x: u32, y: u32) -> u16
    ensures value { result ≡ grey number x y }
    ensures byte { result ≤ 255 }
{
    let seed = (number as u64 + 1) * 2_654_435_761 + 40_503 * x as u64 + 69_069 * y as u64;
    let first = (seed % 4_294_967_296) as u32;
    let second = first ^ (first / 32_768);
    let third = (1_664_525 * second as u64 + 1_013_904_223) % 4_294_967_296;
    (third / 16_777_216) as u16
}

// How far a pixel of the left image stands to the right of its match.
fn shift(x: u32, y: u32) -> u32
    ensures value { result ≡ shift x y }
    ensures small { result ≤ 28 }
{
    if (96..160).contains(&x) && (64..128).contains(&y) {
        28
    } else {
        8 + 4 * ((y / 48) % 4)
    }
}

#[tactic(auto, unfolding(crate::specs::Pair::pair_sample))]
fn sample(number: u32, side: Side, x: u32, y: u32) -> u16
    requires { x ≤ MAX_SIDE }
    ensures value { result ≡ pair_sample number side x y }
    ensures byte { result ≤ 255 }
{
    match side {
        Side::Left => grey(number, x + 64 - shift(x, y), y),
        Side::Right => grey(number, x + 64, y),
    }
}

fn samples(alloc: Global, number: u32, side: Side, size: Size) -> Result<Vec<u16>, AllocError>
    ensures samples { IfOk result (λ v. v.items
        ≡ row_by_row size.width size.height (pair_sample number side)) }
    ensures bytes { IfOk result (λ v. All (λ s. s ≤ 255) v.items) }
{
    let count = size.pixels();
    let width = size.width as usize;
    let mut samples = Vec::with_capacity(alloc, count)?;
    for i in 0..count {
        samples.push(sample(number, side, (i % width) as u32, (i / width) as u32))?;
    }
    Ok(samples)
}

#[tactic(auto, unfolding(crate::specs::Pair::pair_image))]
fn side_image(alloc: Global, number: u32, side: Side, size: Size) -> Result<Image, AllocError>
    ensures { IfOk result (λ i. i ≡ pair_image number side size.width size.height) }
{
    // That the samples are few enough to be counted is seen by their number alone.
    let _count = size.pixels();
    let samples = samples(alloc, number, side, size)?;
    match Image::make(size, 255, samples) {
        Some(image) => Ok(image),
        None => unreachable!(),
    }
}

/// The left and the right image that are generated from a number, both with maxval 255: a texture
/// that looks like chance, on a ground of four bands and a square in front of it.
pub fn pair(alloc: Global, size: Size, number: u32) -> Result<(Image, Image), AllocError>
    ensures left { IfOk result (λ p. p.0 ≡ pair_image number Side.Left size.width size.height) }
    ensures right { IfOk result (λ p. p.1 ≡ pair_image number Side.Right size.width size.height) }
{
    let left = side_image(alloc, number, Side::Left, size)?;
    let right = side_image(alloc, number, Side::Right, size)?;
    Ok((left, right))
}
