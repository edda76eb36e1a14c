use sgm_app::pair;
use sgm_base::{Image, Size};
use std::test::Fail;

/// Whether the sample at this place is this one, and the image has values to 255.
fn has_sample(image: &Image, place: usize, sample: u16) -> bool {
    image.samples().get(place).copied() == Some(sample) && image.maxval() == 255
}

#[test]
fn a_sample_of_each_side_is_the_known_one(rt: HostRuntime) -> Result<(), Fail> {
    let size = Size::make(9, 1).ok_or("a size")?;
    let (left, right) = pair(rt.alloc(), size, 0)?;
    assert!(rt; has_sample(&left, 0, 155) && has_sample(&left, 8, 170));
    assert!(rt; has_sample(&right, 0, 170));
    Ok(())
}
