/// The greatest maxval.
pub const MAX_MAXVAL: u32 = 65_535;
