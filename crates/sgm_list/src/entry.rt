use std::marker::Model;

/// A pair that is to be matched.
#[derive(Drop)]
pub struct Entry {
    /// The name of the left image.
    pub left: String,
    /// The name of the right image.
    pub right: String,
    /// The name of the calibration; None for the plain settings.
    pub calib: Option<String>,
    /// What the names of the outputs begin with.
    pub out: String,
}

impl Model for Entry {
    ghost use Rattle.std.specs.Prelude.{string_bytes, option_map};
    ghost use Rattle.sgm_list.specs.Entries.{EntryNames};

    ghost Value = { EntryNames };

    ghost view = { λ e. record {
      left = string_bytes e.left;
      right = string_bytes e.right;
      calib = option_map string_bytes e.calib;
      out = string_bytes e.out;
    } };
}
