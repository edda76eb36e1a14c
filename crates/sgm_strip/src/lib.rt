//! Scenes with their guides, and the strips into which their rows are cut: parcels, which have the
//! costs and the sums of a strip, and fronts, which hand the last row of path values of a direction
//! from strip to strip. The types keep facts of the whole image, so that whatever strips there are,
//! complete parcels have the sums of whole rays.
#![tactic(auto)]

mod cut;
mod front;
mod guide;
pub mod laws;
mod making;
mod parcel;
mod passing;
mod row;
mod scene;
mod sweeping;

pub use cut::Cut;
pub use front::{Front, Visit};
pub use guide::Guide;
pub use parcel::Parcel;
pub use passing::pass;
pub use row::Row;
pub use scene::Scene;
