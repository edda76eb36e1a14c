ghost use Rattle.std.specs.Prelude.{◌≡◌, ◌-◌, ◌<◌, IfSome, false};
ghost use Rattle.sgm_energy.specs.Dirs.{offset, is_level, front_of, dir_of_front, goes_down};
ghost use Rattle.sgm_energy.specs.Dirs.{position_of};
ghost use Rattle.sgm_energy.specs.Rays.{column_before, row_before};

/// The direction in which a ray runs through the image. The numbers 0 to 7 follow this order.
#[derive(Clone, Copy, Debug, PartialEq, Eq)]
pub enum Dir {
    Right,
    Left,
    Down,
    DownRight,
    DownLeft,
    Up,
    UpRight,
    UpLeft,
}

impl Dir {
    /// The directions that have a front, by its number.
    pub const FRONTS: [Dir; 6] = [
        Dir::Down,
        Dir::DownRight,
        Dir::DownLeft,
        Dir::Up,
        Dir::UpRight,
        Dir::UpLeft,
    ];

    /// How far one step goes to the right and downwards, in pixels.
    pub fn offset(self) -> (i32, i32)
        ensures { result ≡ offset self }
    {
        match self {
            Dir::Right => (1, 0),
            Dir::Left => (-1, 0),
            Dir::Down => (0, 1),
            Dir::DownRight => (1, 1),
            Dir::DownLeft => (-1, 1),
            Dir::Up => (0, -1),
            Dir::UpRight => (1, -1),
            Dir::UpLeft => (-1, -1),
        }
    }

    /// Whether a ray stays in its row: Right and Left.
    pub fn is_level(self) -> bool
        ensures { result ≡ is_level self }
    {
        matches!(self, Dir::Right | Dir::Left)
    }

    /// Whether a ray goes from an upper row to a lower one.
    pub fn goes_down(self) -> bool
        ensures { result ≡ goes_down self }
    {
        matches!(self, Dir::Down | Dir::DownRight | Dir::DownLeft)
    }

    /// The column from which a ray comes to the column `x`, where it lies in an image so wide.
    #[inline(always)]
    pub fn column_before(self, width: usize, x: usize) -> Option<usize>
        requires { x < width }
        ensures value { result ≡ column_before self width x }
        ensures inside { IfSome result (λ z. z < width) }
    {
        match self.offset().0 {
            1 => x.checked_sub(1),
            -1 if x + 1 < width => Some(x + 1),
            -1 => None,
            _ => Some(x),
        }
    }

    /// The row from which a ray comes to the row `y`, where it lies in an image so high.
    pub fn row_before(self, height: u32, y: u32) -> Option<u32>
        requires { y < height }
        ensures value { result ≡ row_before self height y }
        ensures inside { IfSome result (λ z. z < height) }
    {
        match self.offset().1 {
            1 => y.checked_sub(1),
            -1 if y + 1 < height => Some(y + 1),
            -1 => None,
            _ => Some(y),
        }
    }

    /// The number of the direction's front, 0 to 5. A level direction has none.
    pub fn front(self) -> Option<usize>
        ensures { result ≡ front_of self }
    {
        match self {
            Dir::Right | Dir::Left => None,
            Dir::Down => Some(0),
            Dir::DownRight => Some(1),
            Dir::DownLeft => Some(2),
            Dir::Up => Some(3),
            Dir::UpRight => Some(4),
            Dir::UpLeft => Some(5),
        }
    }

    /// The direction whose front has this number.
    pub fn from_front(front: usize) -> Option<Dir>
        ensures { result ≡ dir_of_front front }
    {
        Dir::FRONTS.get(front).copied()
    }

    /// Where a strip stands among all strips in the order in which this direction visits them: from
    /// the top for the directions that go downwards, else from the bottom.
    pub fn position(self, strip: u32, strips: u32) -> u32
        requires across { is_level self ≡ false }
        requires inside { strip < strips }
        ensures { result ≡ position_of self strip strips }
    {
        if self.goes_down() {
            strip
        } else {
            strips - 1 - strip
        }
    }
}
