//! The limits of a list, each named once for code and contracts.

/// The greatest number of entries of a list.
pub const MAX_ENTRIES: usize = 1000;
