ghost use Rattle.std.specs.Prelude.{◌≡◌, ◌↔◌, ◌*◌, ◌<◌, IsSome, IfSome, IfOk, length};
ghost use Rattle.sgm_base.specs.Values.{IsValues, values_of, void, row_of};

use crate::Size;
use std::alloc::{AllocError, Global};
use std::marker::Model;

/// For each pixel, row by row, a value, or None where it is void.
#[derive(Drop)]
pub struct Plane {
    size: Size,
    entries: Vec<Option<u16>>,
}

impl Model for Plane {
    ghost use Rattle.sgm_base.specs.Values.{Values, IsValues, values_of};

    ghost Value = { Values };

    ghost view = { λ p. values_of p.size.width p.size.height p.entries.items };

    ghost invariant = { λ p. IsValues (values_of p.size.width p.size.height p.entries.items) };
}

impl Plane {
    /// A plane on which every pixel is void.
    pub fn blank(alloc: Global, size: Size) -> Result<Plane, AllocError>
        ensures { IfOk result (λ p. p ≡ void size.width size.height) }
    {
        let entries = vec![in alloc; None; size.pixels()]?;
        Ok(Plane { size, entries })
    }

    /// The plane with these entries; None exactly where they are not width * height. Takes no
    /// memory.
    pub fn make(size: Size, entries: Vec<Option<u16>>) -> Option<Plane>
        ensures exact { IsSome result ↔ (length entries.items ≡ size.width * size.height) }
        ensures made { IfSome result (λ p. p ≡ values_of size.width size.height entries.items) }
    {
        if entries.len() == size.pixels() {
            Some(Plane { size, entries })
        } else {
            None
        }
    }

    pub fn size(&self) -> Size
        ensures width { result.width ≡ self.now.width }
        ensures height { result.height ≡ self.now.height }
        ensures kept { IsValues self.now }
    {
        self.size
    }

    /// All entries, row by row.
    pub fn entries(&self) -> &[Option<u16>]
        ensures { result.now ≡ self.now.entries }
    {
        &self.entries
    }

    /// The entries of the row `y`.
    pub fn row(&self, y: u32) -> &[Option<u16>]
        requires { y < self.now.height }
        ensures value { result.now ≡ row_of self.now y }
        ensures whole { length result.now ≡ self.now.width }
    {
        let width = self.size.width as usize;
        let at = y as usize * width;
        &self.entries[at..at + width]
    }

    /// The entries of the row `y`, to be written. What the plane ends as is not said.
    pub fn row_mut(&mut self, y: u32) -> &mut [Option<u16>]
        requires { y < self.old.height }
        ensures value { result.now ≡ row_of self.old y }
        ensures whole { length result.now ≡ self.old.width }
    {
        let width = self.size.width as usize;
        let at = y as usize * width;
        &mut self.entries[at..at + width]
    }
}
