/// What a cell keeps of the heights of the points that fall into it.
#[derive(Clone, Copy, Debug, PartialEq, Eq)]
pub enum Keep {
    /// The greatest of them.
    Highest,
    /// Their mean, rounded to whole micrometres, halves upwards.
    Mean,
}

/// How the points of a survey become the heights of cells.
#[derive(Clone, Copy, Debug, PartialEq, Eq)]
pub struct Gridding {
    /// What a cell keeps of its points.
    pub keep: Keep,
    /// Over how many cells to each side heights are bridged, from 0 (none are) to [`MAX_BRIDGE`].
    ///
    /// [`MAX_BRIDGE`]: crate::MAX_BRIDGE
    pub bridge: u32,
}
