//! What a slot of a board has.
use sgm_strip::{Front, Parcel};

#[derive(Drop)]
pub enum Slot {
    Empty,
    OfStrip(Parcel),
    OfFront(Front),
}
