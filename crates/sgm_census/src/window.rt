ghost use Rattle.std.specs.Prelude.{◌≡◌, ◌↔◌, ◌≤◌, IsSome, IfSome};
ghost use Rattle.sgm_census.specs.Windows.{WindowSides, IsWindow, greatest_of};

use sgm_base::{MAX_COST, MAX_WINDOW_HEIGHT, MAX_WINDOW_WIDTH, MIN_WINDOW_SIDE};
use std::marker::Model;

/// The sides of a census window in pixels, both odd: the width is 3, 5, 7 or 9, the height 3, 5 or
/// 7.
#[derive(Clone, Copy, PartialEq, Eq)]
pub struct Window {
    pub width: u32,
    pub height: u32,
}

impl Model for Window {
    ghost Value = { WindowSides };

    ghost view = { λ w. record { width = w.width; height = w.height } };

    ghost inverse = { λ w. record { width = w.width; height = w.height } };

    ghost invariant = { λ w. IsWindow w.width w.height };
}

impl Window {
    /// None exactly where a side is even or outside its limits.
    pub fn make(width: u32, height: u32) -> Option<Window>
        ensures exact { IsSome result ↔ IsWindow width height }
        ensures made { IfSome result (λ w. w ≡ record { width = width; height = height }) }
    {
        let is_wide = (MIN_WINDOW_SIDE..=MAX_WINDOW_WIDTH).contains(&width);
        let is_high = (MIN_WINDOW_SIDE..=MAX_WINDOW_HEIGHT).contains(&height);
        if is_wide && is_high && width % 2 == 1 && height % 2 == 1 {
            Some(Window { width, height })
        } else {
            None
        }
    }

    /// The greatest cost of two codes, width * height - 1, which is at most [`MAX_COST`]. It is
    /// also the number of truth values of a code.
    pub fn greatest(&self) -> u8
        ensures value { result ≡ greatest_of self.now }
        ensures most { result ≤ MAX_COST }
        ensures kept { IsWindow self.now.width self.now.height }
    {
        (self.width * self.height - 1) as u8
    }
}
