ghost use Rattle.std.specs.Prelude.{◌≡◌, ◌↔◌, IsSome, IfSome};
ghost use Rattle.sgm_base.specs.Picture.{Picture, IsPicture, picture};

use crate::Size;
use std::marker::Model;

/// An image of grey samples, row by row from the top, each from 0 to `maxval`.
#[derive(Drop)]
pub struct Image {
    size: Size,
    maxval: u16,
    samples: Vec<u16>,
}

impl Model for Image {
    ghost Value = { Picture };

    ghost view = { λ i. picture i.size.width i.size.height i.maxval i.samples.items };

    ghost invariant = { λ i.
        IsPicture (picture i.size.width i.size.height i.maxval i.samples.items) };
}

impl Image {
    /// None exactly where the list has not width * height samples, `maxval` is 0, or a sample is
    /// above `maxval`. Takes no memory.
    pub fn make(size: Size, maxval: u16, samples: Vec<u16>) -> Option<Image>
        ensures exact { IsSome result
            ↔ IsPicture (picture size.width size.height maxval samples.items) }
        ensures made { IfSome result (λ i. i
            ≡ picture size.width size.height maxval samples.items) }
    {
        if samples.len() == size.pixels() && maxval >= 1 && samples.iter().all(|s| *s <= maxval) {
            Some(Image {
                size,
                maxval,
                samples,
            })
        } else {
            None
        }
    }

    pub fn size(&self) -> Size
        ensures width { result.width ≡ self.now.width }
        ensures height { result.height ≡ self.now.height }
    {
        self.size
    }

    /// The greatest allowed sample, at least 1.
    pub fn maxval(&self) -> u16
        ensures { result ≡ self.now.maxval }
    {
        self.maxval
    }

    /// The samples, row by row.
    pub fn samples(&self) -> &[u16]
        ensures samples { result.now ≡ self.now.samples }
        ensures kept { IsPicture self.now }
    {
        &self.samples
    }
}
