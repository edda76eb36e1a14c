ghost use Rattle.std.specs.Prelude.{◌≡◌, ◌↔◌, ◌*◌, ◌<◌, IsSome, IfSome, IfOk, length};
ghost use Rattle.sgm_base.specs.Values.{IsValues, values_of, void, row_of};

use crate::{Plane, Size};
use std::alloc::{AllocError, Global};
use std::marker::Model;

/// A disparity for each pixel, row by row, or None where there is none. A value is the disparity,
/// less the first, in sixteenths.
#[derive(Drop)]
pub struct DispMap {
    plane: Plane,
}

impl Model for DispMap {
    ghost use Rattle.sgm_base.specs.Values.{Values};

    ghost Value = { Values };

    ghost view = { λ m. m.plane };
}

impl DispMap {
    /// A map without a disparity.
    pub fn blank(alloc: Global, size: Size) -> Result<DispMap, AllocError>
        ensures { IfOk result (λ m. m ≡ void size.width size.height) }
    {
        let plane = Plane::blank(alloc, size)?;
        Ok(DispMap { plane })
    }

    /// The map with these entries; None exactly where they are not width * height. Takes no memory.
    pub fn make(size: Size, entries: Vec<Option<u16>>) -> Option<DispMap>
        ensures exact { IsSome result ↔ (length entries.items ≡ size.width * size.height) }
        ensures made { IfSome result (λ m. m ≡ values_of size.width size.height entries.items) }
    {
        match Plane::make(size, entries) {
            Some(plane) => Some(DispMap { plane }),
            None => None,
        }
    }

    pub fn size(&self) -> Size
        ensures width { result.width ≡ self.now.width }
        ensures height { result.height ≡ self.now.height }
        ensures kept { IsValues self.now }
    {
        self.plane.size()
    }

    /// All entries, row by row.
    pub fn entries(&self) -> &[Option<u16>]
        ensures { result.now ≡ self.now.entries }
    {
        self.plane.entries()
    }

    /// The entries of the row `y`.
    pub fn row(&self, y: u32) -> &[Option<u16>]
        requires { y < self.now.height }
        ensures value { result.now ≡ row_of self.now y }
        ensures whole { length result.now ≡ self.now.width }
    {
        self.plane.row(y)
    }

    /// The entries of the row `y`, to be written. What the map ends as is not said.
    pub fn row_mut(&mut self, y: u32) -> &mut [Option<u16>]
        requires { y < self.old.height }
        ensures value { result.now ≡ row_of self.old y }
        ensures whole { length result.now ≡ self.old.width }
    {
        self.plane.row_mut(y)
    }
}
