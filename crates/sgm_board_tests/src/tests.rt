//! What no clause says of strips, boards and workers, by the worked example: three rows of five
//! pixels.
mod boards;
mod making;
mod selecting;
mod starting;
mod strips;
mod sums;
mod taking;
mod workers;
mod working;
