use crate::kind::Kind;

/// What tells which keys an object is given, where its row of the table alone doesn't.
#[derive(Clone, Copy)]
pub enum Sort {
    /// The row alone does.
    Plain,
    /// A side of the warps goes by its kind.
    Side(Kind),
    /// The value itself and the objects that it holds go by the version.
    Version(u64),
}
