ghost use Rattle.std.specs.Prelude.{◌≡◌};
ghost use Rattle.sgm_calib.specs.Keeps.{keep_named};

use sgm_grid::Keep;

/// What a cell keeps by that name in a calibration file, where it says something.
pub fn keep_named(name: &str) -> Option<Keep>
    ensures { result ≡ keep_named name.now }
{
    if name == "highest" {
        Some(Keep::Highest)
    } else if name == "mean" {
        Some(Keep::Mean)
    } else {
        None
    }
}
