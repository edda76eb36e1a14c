//! The world outside as two traits: a shelf of named files, and a sink that bytes go into. Fakes in
//! memory for both, which can be made to fail, and adapters for real files and standard streams.
#![tactic(auto)]

mod device;
mod disk_shelf;
mod faults;
mod files;
mod fill;
mod memory_shelf;
mod memory_sink;
mod shelf;
mod sink;
mod std_sink;
mod sure_shelf;
mod trip;
mod unfinished;

pub use device::read_at_most;
pub use disk_shelf::DiskShelf;
pub use memory_shelf::MemoryShelf;
pub use memory_sink::MemorySink;
pub use shelf::{FetchError, KeepError, Shelf, append_whole};
pub use sink::{Sink, SinkError, write_whole};
pub use std_sink::StdSink;
pub use sure_shelf::SureShelf;
pub use trip::Trip;
