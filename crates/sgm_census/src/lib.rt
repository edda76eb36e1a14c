//! The census transform: for each pixel of a plane a code of truth values, and the cost of matching
//! two pixels, which is the number of places in which their codes differ, or by the smoothed rule a
//! mean of these along the row.
#![tactic(auto)]

mod code_plane;
mod coding;
mod cost;
pub mod laws;
mod pack;
mod rows;
mod rule;
mod smoothed;
mod window;

pub use code_plane::{CodePlane, codes, codes_by};
pub use cost::{append_costs, cost_at, cost_row};
pub use rule::CostRule;
pub use window::Window;
