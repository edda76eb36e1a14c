/// By which rule the codes of planes are made, and the costs between them. Both planes of a scene
/// have one.
#[derive(Clone, Copy, PartialEq, Eq)]
pub enum CostRule {
    /// Neighbours are compared with the pixel itself; a pixel whose window isn't whole has no code,
    /// and costs are the greatest where a code is missing.
    Plain,
    /// Neighbours are compared with the middle of five values, every pixel that isn't void has a
    /// code, and costs are smoothed along the row.
    Smoothed,
}
