//! What a pass knows. No value of these types is made: the clauses alone speak of them.
use sgm_energy::Dir;
use sgm_strip::{Cut, Scene};
use std::collections::LinkedList;

/// Whose parcels and fronts a board has.
pub struct About {
    pub scene: Scene,
    pub cut: Cut,
}

/// A list of numbers by place reads as 0 past its end.
pub struct View {
    pub number: u64,
    /// What its board is about. None once the pass was joined to another.
    pub about: Option<About>,
    /// The numbers of passes that it has gathered, its own among them.
    pub gathered: LinkedList<u64>,
    pub strip: Option<u64>,
    /// The directions done in the parcel of the strip held, by their numbers, as it was claimed.
    pub done_at_claim: LinkedList<bool>,
    /// The directions put, and those whose words were read, since the claim: each by its word.
    pub put_since: LinkedList<u64>,
    pub read_since: LinkedList<u64>,
    pub front: Option<Dir>,
    /// By word the value last seen, and the number of looks.
    pub seen: LinkedList<u64>,
    pub looks: LinkedList<u64>,
    /// By strip.
    pub claims: LinkedList<u64>,
    /// At 6 times the strip and the direction's word.
    pub tries: LinkedList<u64>,
    pub puts: u64,
}
