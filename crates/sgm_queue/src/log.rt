//! What a pass knows. No value of this type is made: the clauses alone speak of it.
use std::collections::LinkedList;

pub struct Log<T> {
    /// How many of the two shares in the queue the pass has; 0 once it was joined to another.
    pub shares: u64,
    /// What it pushed, and what it popped, the last at the end.
    pub pushed: LinkedList<T>,
    pub popped: LinkedList<T>,
}
