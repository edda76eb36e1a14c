/// How many entries are fetched and made at a time.
pub const BATCH: usize = 8;
