ghost use Rattle.std.specs.Prelude.{◌≡◌, ◌*◌, IfOk};

use sgm_base::{Size, Span};
use std::alloc::{AllocError, Global};
use std::marker::Model;

/// Room for one row of path values. Contracts see how many entries it has: what they are means
/// nothing.
#[derive(Drop)]
pub struct Row {
    pub(crate) values: Vec<u16>,
}

impl Model for Row {
    ghost use Rattle.std.specs.Prelude.{ℕ, length};

    ghost Value = { ℕ };

    ghost view = { λ r. length r.values.items };
}

impl Row {
    /// A row of width * count entries.
    pub fn make(alloc: Global, size: Size, span: Span) -> Result<Row, AllocError>
        ensures { IfOk result (λ row. row ≡ size.width * span.count) }
    {
        let values = vec![in alloc; 0u16; size.width as usize * span.count as usize]?;
        Ok(Row { values })
    }
}
