ghost use Rattle.std.specs.Prelude.{◌≡◌, ◌*◌, ◌/◌, ◌≤◌, ◌<◌, length, option_map, IfSome, IfOk};
ghost use Rattle.sgm_base.specs.Values.{AtMost, IsValues, row_of, value_at};
ghost use Rattle.sgm_energy.specs.Pens.{guide_of};

use sgm_base::{Plane, Size};
use std::alloc::{AllocError, Global};
use std::marker::Model;
use std::sync::Arc;

/// What an adaptive pen's penalties follow: for each pixel, row by row, a grey value from 0 to 255,
/// or None where the image is void.
#[derive(Drop)]
pub struct Guide {
    size: Size,
    // A scene and its parcels share them.
    entries: Arc<Vec<Option<u8>>>,
}

impl Model for Guide {
    ghost use Rattle.std.specs.Arc.{arc_value};
    ghost use Rattle.sgm_base.specs.Values.{Values, IsValues, values_of};

    ghost Value = { Values };

    ghost view = { λ g. values_of g.size.width g.size.height (arc_value g.entries).items };

    ghost invariant = { λ g.
        IsValues (values_of g.size.width g.size.height (arc_value g.entries).items) };
}

/// A value of an image whose values go up to `maxval`, as a grey value; None where it is void.
fn grey(entry: Option<u16>, maxval: u16) -> Option<u8>
    requires maxval { 1 ≤ maxval }
    requires value { IfSome entry (λ v. v ≤ maxval) }
    ensures { result ≡ option_map (λ v. 255 * v / maxval) entry }
{
    let value = entry?;
    // So go most images, and a division takes longer than all else here.
    if maxval == 255 {
        return Some(value as u8);
    }
    Some((255 * u32::from(value) / u32::from(maxval)) as u8)
}

impl Guide {
    /// The guide of a plane whose values go up to `maxval`: at each pixel
    /// floor(255 * value / maxval), and None where the plane is void.
    pub fn make(alloc: Global, plane: &Plane, maxval: u16) -> Result<Guide, AllocError>
        requires maxval { 1 ≤ maxval }
        requires values { AtMost maxval plane.now.entries }
        ensures { IfOk result (λ guide. guide ≡ guide_of plane.now maxval) }
    {
        let size = plane.size();
        let mut entries = Vec::with_capacity(alloc, size.pixels())?;
        for entry in plane.entries() {
            entries.push(grey(*entry, maxval))?;
        }
        let entries = Arc::new(alloc, entries)?;
        Ok(Guide { size, entries })
    }

    pub fn size(&self) -> Size
        ensures width { result.width ≡ self.now.width }
        ensures height { result.height ≡ self.now.height }
        ensures kept { IsValues self.now }
    {
        self.size
    }

    /// The same guide once more, over the same memory; Err where it cannot be shared.
    pub(crate) fn share(&self) -> Result<Guide, AllocError>
        ensures { IfOk result (λ guide. guide ≡ self.now) }
    {
        let entries = Arc::try_clone(&self.entries)?;
        Ok(Guide {
            size: self.size,
            entries,
        })
    }

    /// The grey values of the row `y`.
    pub(crate) fn row(&self, y: u32) -> &[Option<u8>]
        requires { y < self.now.height }
        ensures value { result.now ≡ row_of self.now y }
        ensures whole { length result.now ≡ self.now.width }
    {
        let width = self.size.width as usize;
        let at = y as usize * width;
        &self.entries[at..at + width]
    }

    /// The grey value of the pixel (x, y).
    pub(crate) fn at(&self, x: u32, y: u32) -> Option<u8>
        requires column { x < self.now.width }
        requires row { y < self.now.height }
        ensures { result ≡ value_at self.now x y }
    {
        self.row(y)[x as usize]
    }
}
