//! The pixels around another one.

ghost use Rattle.std.specs.Prelude.{◌≡◌, true, ℕ, ◌+◌, ◌*◌, ◌^◌, ◌<◌, ◌≤◌, None, length};
ghost use Rattle.std.specs.Prelude.{slice_index_or};
ghost use Rattle.sgm_base.specs.Values.{value_at};
ghost use Rattle.sgm_fine.specs.Windows.{HoldsWindow, value_around};

use crate::sums::{PLACES, SIDE};
use sgm_base::{DispMap, Plane};
use std::marker::Model;

/// A value or none for each pixel of a window, row by row.
pub(crate) type Window = [Option<u16>; PLACES];

/// A value or none for each pixel, row by row.
#[derive(Drop)]
pub(crate) struct Field<'a> {
    entries: &'a [Option<u16>],
    width: usize,
    height: usize,
}

impl<'a> Model for Field<'a> {
    ghost use Rattle.sgm_base.specs.Values.{Values, IsValues, values_of};

    ghost Value = { Values };

    ghost view = { λ f. values_of f.width f.height f.entries.now };

    ghost invariant = { λ f. IsValues (values_of f.width f.height f.entries.now) };
}

impl<'a> Field<'a> {
    /// What a plane holds.
    pub(crate) fn of_plane(plane: &'a Plane) -> Field<'a>
        ensures { result ≡ plane.now }
    {
        let size = plane.size();
        Field {
            entries: plane.entries(),
            width: size.width as usize,
            height: size.height as usize,
        }
    }

    /// What a map holds.
    pub(crate) fn of_map(map: &'a DispMap) -> Field<'a>
        ensures { result ≡ map.now }
    {
        let size = map.size();
        Field {
            entries: map.entries(),
            width: size.width as usize,
            height: size.height as usize,
        }
    }

    /// The value of a pixel inside, none where it is void.
    #[inline]
    pub(crate) fn inner(&self, x: usize, y: usize) -> Option<u16>
        requires column { x < self.now.width }
        requires row { y < self.now.height }
        ensures { result ≡ value_at self.now x y }
    {
        self.entries[y * self.width + x]
    }

    /// The values of a row.
    #[inline]
    pub(crate) fn row(&self, y: usize) -> &[Option<u16>]
        requires { y < self.now.height }
        ensures each { (x : ℕ) → x < self.now.width
            → slice_index_or result.now x None ≡ value_at self.now x y }
        ensures whole { length result.now ≡ self.now.width }
        ensures few { self.now.width ≤ 4096 }
    {
        &self.entries[y * self.width..(y + 1) * self.width]
    }

    /// The value of the pixel (x, y), none where it is void or outside.
    #[inline]
    pub(crate) fn at(&self, x: usize, y: usize) -> Option<u16>
        ensures { result ≡ value_at self.now x y }
    {
        if x < self.width && y < self.height {
            self.inner(x, y)
        } else {
            None
        }
    }

    /// The value in the column `i` and the row `j` of the square that reaches so far around the
    /// pixel (x, y), none where it is void or outside.
    #[inline]
    pub(crate) fn around(&self, reach: usize, x: usize, y: usize, i: usize, j: usize) -> Option<u16>
        requires column { x + i < 2 ^ 16 }
        requires row { y + j < 2 ^ 16 }
        ensures { result ≡ value_around self.now reach x y i j }
    {
        if reach <= x + i && reach <= y + j {
            self.at(x + i - reach, y + j - reach)
        } else {
            None
        }
    }

    /// The same of the square that reaches two pixels, where that pixel lies inside.
    #[inline]
    pub(crate) fn around_inside(&self, x: usize, y: usize, i: usize, j: usize) -> Option<u16>
        requires small { (x + i < 2 ^ 16) × (y + j < 2 ^ 16) }
        requires column { (2 ≤ x + i) × (x + i < self.now.width + 2) }
        requires row { (2 ≤ y + j) × (y + j < self.now.height + 2) }
        ensures { result ≡ value_around self.now 2 x y i j }
    {
        self.inner(x + i - 2, y + j - 2)
    }

    /// Whether all of the square that reaches so far around a pixel lies inside.
    #[inline]
    pub(crate) fn has_square(&self, reach: usize, x: usize, y: usize) -> bool
        requires reach { reach < 2 ^ 15 }
        requires pixel { (x < 2 ^ 15) × (y < 2 ^ 15) }
        ensures columns { result ≡ true → (reach ≤ x) × (x + reach < self.now.width) }
        ensures rows { result ≡ true → (reach ≤ y) × (y + reach < self.now.height) }
        ensures near { result ≡ true → x + reach < 4096 }
    {
        reach <= x && reach <= y && x + reach < self.width && y + reach < self.height
    }

    /// Whether all of the window around a pixel lies inside.
    #[inline]
    pub(crate) fn has_window(&self, x: usize, y: usize) -> bool
        requires pixel { (x < 2 ^ 15) × (y < 2 ^ 15) }
        ensures columns { result ≡ true → (2 ≤ x) × (x + 2 < self.now.width) }
        ensures rows { result ≡ true → (2 ≤ y) × (y + 2 < self.now.height) }
        ensures near { result ≡ true → x + 2 < 4096 }
    {
        self.has_square(2, x, y)
    }

    /// Whether all rows of a window around a pixel lie inside.
    #[inline]
    pub(crate) fn has_rows(&self, y: usize) -> bool
        requires pixel { y < 2 ^ 15 }
        ensures { result ≡ true → (2 ≤ y) × (y + 2 < self.now.height) }
    {
        2 <= y && y + 2 < self.height
    }

    /// How many columns there are.
    #[inline]
    pub(crate) fn width(&self) -> usize
        ensures value { result ≡ self.now.width }
        ensures small { result ≤ 4096 }
    {
        self.width
    }

    /// Gathers the values of the window around a pixel, where all of it lies inside.
    #[inline]
    fn gather_inside(&self, x: usize, y: usize, window: &mut Window)
        requires pixel { (x < 2 ^ 15) × (y < 2 ^ 15) }
        requires columns { (2 ≤ x) × (x + 2 < self.now.width) }
        requires rows { (2 ≤ y) × (y + 2 < self.now.height) }
        ensures { HoldsWindow window.new self.now x y }
    {
        for j in 0..SIDE {
            let at = (y + j - 2) * self.width + x - 2;
            window[SIDE * j..SIDE * (j + 1)].copy_from_slice(&self.entries[at..at + SIDE]);
        }
    }

    /// The same where some of it may lie outside.
    #[inline(never)]
    fn gather_across(&self, x: usize, y: usize, window: &mut Window)
        requires pixel { (x < 2 ^ 15) × (y < 2 ^ 15) }
        ensures { HoldsWindow window.new self.now x y }
    {
        for k in 0..PLACES {
            window[k] = self.around(2, x, y, k % SIDE, k / SIDE);
        }
    }

    /// The values of the window around the pixel (x, y), row by row, none for each that is void or
    /// outside.
    #[inline]
    pub(crate) fn window(&self, x: usize, y: usize) -> Window
        requires pixel { (x < 2 ^ 15) × (y < 2 ^ 15) }
        ensures { HoldsWindow result self.now x y }
    {
        let mut window = [None; PLACES];
        if self.has_window(x, y) {
            self.gather_inside(x, y, &mut window);
        } else {
            self.gather_across(x, y, &mut window);
        }
        window
    }
}
