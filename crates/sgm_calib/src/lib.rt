//! The calibration file: its key table in `src/table.rt`, and [`read`], which gives the calibration
//! or the first fault by that table.
#![tactic(auto)]

mod calib;
mod checks;
mod keep;
mod keys;
mod kind;
pub mod laws;
mod lists;
mod place;
mod pose;
mod reading;
mod regions;
mod sections;
mod sort;
mod table;
mod warps;

pub use calib::Calib;
pub use keys::{CalibError, CalibFault, Key};
pub use reading::read;
pub use sgm_base::{MAX_CALIB_BYTES, MAX_REGIONS};
