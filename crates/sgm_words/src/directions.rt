//! The words for directions.
ghost use Rattle.std.specs.Prelude.{◌≡◌};
ghost use Rattle.sgm_words.specs.Directions.{direction_word, is_direction, direction_of};

use sgm_energy::Dir;

const DIRECTIONS: [Dir; 8] = [
    Dir::Right,
    Dir::Left,
    Dir::Down,
    Dir::DownRight,
    Dir::DownLeft,
    Dir::Up,
    Dir::UpRight,
    Dir::UpLeft,
];

// A direction's word.
fn direction_word(dir: Dir) -> &'static str
    ensures { result.now ≡ direction_word dir }
{
    match dir {
        Dir::Right => "right",
        Dir::Left => "left",
        Dir::Down => "down",
        Dir::DownRight => "downright",
        Dir::DownLeft => "downleft",
        Dir::Up => "up",
        Dir::UpRight => "upright",
        Dir::UpLeft => "upleft",
    }
}

// Whether this is the direction's word.
fn is_direction(text: &[u8], dir: Dir) -> bool
    ensures { result ≡ is_direction text.now dir }
{
    direction_word(dir).as_bytes() == text
}

/// The direction of this word.
#[tactic(auto, unfolding(crate::specs::Directions::direction_of))]
pub fn direction(text: &[u8]) -> Option<Dir>
    ensures { result ≡ direction_of text.now }
{
    DIRECTIONS
        .iter()
        .copied()
        .find(|dir| is_direction(text, *dir))
}
