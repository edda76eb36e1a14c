//! Faults of grids' texts. The others are in the tests of `sgm_app`, and more texts are stored
//! cases of `sgm_cases`.

use sgm_grid::{AscError, AscFault, read_asc};
use std::alloc::Global;

/// Whether a text has this first fault.
fn has_fault(alloc: Global, text: &[u8], fault: AscFault) -> bool {
    match read_asc(alloc, text) {
        Err(AscError::Fault(found)) => found == fault,
        _ => false,
    }
}

#[test]
fn texts_have_their_first_faults(rt: HostRuntime) {
    let none = b"ncols 0 nrows 1 xllcorner 0 yllcorner 0 cellsize 1 nodata_value -2147483648";
    assert!(rt; has_fault(rt.alloc(), none, AscFault::Range { at: 1 }));
    let high =
        b"ncols 1 nrows 1 xllcorner 0 yllcorner 0 cellsize 1 nodata_value -2147483648 2000000001";
    assert!(rt; has_fault(rt.alloc(), high, AscFault::Height { index: 0 }));
}
