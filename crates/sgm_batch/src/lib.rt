//! A batch of pairs: the texts of each, made by one or two workers.
#![tactic(auto)]

mod batch;
mod piece;
mod worker;

pub use batch::work_batch;
pub use piece::Piece;
pub use sgm_app::Inputs;
