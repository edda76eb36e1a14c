//! The ranges of a warp's numbers, each named once for code and contracts.

/// The least entry of a projective matrix.
pub const MIN_ENTRY: i64 = -1_099_511_627_776;

/// The greatest entry of a projective matrix.
pub const MAX_ENTRY: i64 = 1_099_511_627_776;

/// The least step of a mesh, in pixels.
pub const MIN_STEP: u32 = 2;

/// The greatest step of a mesh, in pixels.
pub const MAX_STEP: u32 = 1024;

/// The least number of columns and of rows of a mesh.
pub const MIN_NODE_COUNT: u32 = 2;

/// The greatest number of columns and of rows of a mesh.
pub const MAX_NODE_COUNT: u32 = 2049;

/// The least coordinate of a mesh's node, in 1/256 of a pixel.
pub const MIN_NODE: i32 = -16_777_216;

/// The greatest coordinate of a mesh's node, in 1/256 of a pixel.
pub const MAX_NODE: i32 = 16_777_216;
