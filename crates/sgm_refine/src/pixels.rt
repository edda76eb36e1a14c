ghost use Rattle.std.specs.Prelude.{◌<◌, ◌≤◌, ◌^◌, length};

/// The entries of a map, row by row, and its width.
#[derive(Clone, Copy)]
pub(crate) struct Pixels<'a> {
    pub(crate) entries: &'a [Option<u16>],
    pub(crate) width: usize,
    ghost wide: { 0 < width },
    ghost narrow: { width ≤ 2 ^ 32 },
    ghost many: { length entries.now ≤ 2 ^ 32 },
}
