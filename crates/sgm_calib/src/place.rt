/// Where an object stands that has keys of the table, as far as the keys and their ranges rest on
/// it.
#[derive(Clone, Copy)]
pub struct Place {
    /// How many numbers its keys come after those of the table's rows. The right side of the warps
    /// has the rows of the left one.
    pub shift: u8,
    /// The place of a region in the list of regions.
    pub index: u32,
    /// The columns of the grid, for a region.
    pub cols: u32,
    /// The rows of the grid, for a region.
    pub rows: u32,
}

/// The place of an object that is neither the right side of the warps nor a region.
pub const PLAIN: Place = Place {
    shift: 0,
    index: 0,
    cols: 0,
    rows: 0,
};

/// The place of the right side of the warps.
pub const RIGHT_SIDE: Place = Place {
    shift: 7,
    index: 0,
    cols: 0,
    rows: 0,
};
