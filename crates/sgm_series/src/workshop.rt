use std::alloc::Global;

/// What a series is worked with: the runtime, whose threads make the texts, the memory, and the
/// gate, to which the workers come.
#[derive(Drop)]
pub struct Workshop<'a, R, G> {
    pub rt: &'a R,
    pub alloc: Global,
    pub gate: &'a G,
}
