//! What tests watch a run with: gates that remember who came to them, and a shelf that notes its
//! calls.
#![tactic(auto)]

mod meeting;
mod recorder;
mod shelf;

pub use meeting::Meeting;
pub use recorder::{ONE_AT_THREE, Recorder};
pub use shelf::RecordingShelf;
