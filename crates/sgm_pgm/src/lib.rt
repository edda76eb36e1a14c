//! Reading and writing PGM texts.
#![tactic(auto)]

mod fault;
mod header;
pub mod laws;
mod limits;
mod raster;
mod reading;
mod write;

pub use fault::{PgmError, PgmFault};
pub use reading::read;
pub use write::write16;
