//! What follows from the definitions alone. Each function is a law, and its body is empty.

ghost use Rattle.std.specs.Prelude.{◌≡◌, ◌↔◌, ℕ, ◌+◌, List, [], ◌∷◌, Option, Some, Ok, Result};
ghost use Rattle.std.specs.Prelude.{◌||◌, IsTrue, codes};
ghost use Rattle.std.specs.List.{list_all};
ghost use Rattle.sgm_calib.specs.Calibration.{Calibration, plain};
ghost use Rattle.sgm_calib.specs.Table.{keys, order};
ghost use Rattle.sgm_calib.specs.Checks.{first_of, IsFirst};
ghost use Rattle.sgm_calib.specs.Numbers.{numbers, has_path, HasRegionPaths};
ghost use Rattle.sgm_calib.specs.Paths.{is_of_region};
ghost use Rattle.sgm_calib.specs.Read.{Reads};
ghost use Rattle.sgm_calib.specs.declared.keys.CalibFault.{CalibFault};
ghost use Rattle.sgm_calib.specs.Rows.{Row, key_at};
ghost use Rattle.sgm_calib.specs.declared.place.TheConstants.{PLAIN, RIGHT_SIDE};

/// Each list of bytes is one calibration or has one first fault, and not two.
pub fn answers()
    ensures some { (bytes : List ℕ) → (r : Result Calibration CalibFault) × Reads bytes r }
    ensures one { (bytes : List ℕ) (r s : Result Calibration CalibFault) → Reads bytes r
        → Reads bytes s → r ≡ s }
{}

/// The first fault of some checks is that of the check before which all pass.
pub fn first_faults()
    ensures { (checks : List (Option CalibFault)) (fault : CalibFault)
        → (first_of checks ≡ Some fault) ↔ IsFirst checks fault }
{}

/// The checks go by the numbers of the keys in the order that the table names, where those of the
/// right side of the warps have seven more than those of the left; and each key is printed as its
/// name after the path of its object.
pub fn numbers_and_paths()
    ensures in_this_order { numbers ≡ order }
    ensures plain { (row : Row) → key_at PLAIN row ≡ record { number = row.number; index = 0 } }
    ensures right { (row : Row) → key_at RIGHT_SIDE row
        ≡ record { number = row.number + 7; index = 0 } }
    ensures paths { IsTrue (list_all (λ row. is_of_region row || has_path row) keys) }
    ensures regions { (index : ℕ) → HasRegionPaths index }
{}

/// A text that says the plain settings.
pub fn plain_text()
    ensures { Reads (codes "{\"version\":1,\"disparities\":{\"first\":0,\"count\":64},\"census\":{\"width\":9,\"height\":7},\"penalties\":{\"p1\":10,\"p2\":120}}") (Ok plain) }
{}
