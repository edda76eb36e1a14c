/// One pixel of a ray: its column and row, the index that the sequence has there, the cost of that,
/// and the penalty of the change from the index before, which is 0 at the ray's first pixel.
#[derive(Clone, Copy, PartialEq, Eq)]
pub struct Step {
    pub x: u32,
    pub y: u32,
    pub d: u32,
    pub cost: u8,
    pub jump: u16,
}

/// A sequence along a ray and its energy, which its costs and penalties add up to. The energy is at
/// most 4096 * 4062.
#[derive(Drop)]
pub struct Traced {
    pub energy: u32,
    /// One for each pixel of the ray, from its first on.
    pub steps: Vec<Step>,
}
