//! Places that are filled side by side.
ghost use Rattle.std.specs.Prelude.{◌≡◌, IfOk, None, replicate};

use std::alloc::{AllocError, Global};

/// So many places, with nothing in them.
pub fn empty_places<X: Drop>(alloc: Global, count: usize) -> Result<Vec<Option<X>>, AllocError>
    ensures { IfOk result (λ places. places.items ≡ replicate count None) }
{
    let mut places = Vec::with_capacity(alloc, count)?;
    for _ in 0..count {
        places.push_reserved(None);
    }
    Ok(places)
}
