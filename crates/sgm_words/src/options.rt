use sgm_base::Refine;
use sgm_energy::Dir;

/// What the words ask for. The operands of `match` are the words 1 to 4, those of `change` and of
/// `merge` the words 1 to 3, and the images and the calibration of `trace` the words 1 to 3.
#[derive(Clone, Copy, PartialEq, Eq)]
pub enum Options {
    Match {
        strips: u32,
        workers: u32,
        refine: Refine,
    },
    Demo {
        number: u32,
        strips: u32,
        workers: u32,
        refine: Refine,
    },
    /// A certificate for the pixel (x, y) at the index d, along the ray of the direction.
    Trace {
        dir: Dir,
        x: u32,
        y: u32,
        d: u32,
    },
    Change,
    Merge,
}
