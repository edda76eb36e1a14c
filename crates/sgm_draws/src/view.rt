//! What a ticket knows. No value of this type is made: the clauses alone speak of it.
use std::collections::LinkedList;

pub struct View {
    pub number: u64,
    /// How many numbers are drawn, and for how many tickets, of its draws.
    pub count: u64,
    pub made: u64,
    /// The numbers of tickets that it has gathered, its own among them.
    pub gathered: LinkedList<u64>,
    /// The numbers drawn.
    pub drawn: LinkedList<u64>,
    /// The value last seen, and the number of looks.
    pub seen: u64,
    pub looks: u64,
}
