//! The limits of a merge, each named once for code and contracts.

/// How many grids are merged into one at most.
pub const MAX_ENTRIES: u32 = 1000;
