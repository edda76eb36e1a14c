//! Devices that fail once. More are stored cases of `sgm_cases`.

use super::ended::{End, ends_by};
use super::fixtures::{DISPARITIES, example};
use sgm_io::{MemoryShelf, Trip};
use sgm_work::OpenGate;
use std::alloc::{AllocError, Global};
use std::test::Fail;

/// A shelf of the worked example whose append to o.asc fails that would reach beyond its first four
/// lines.
fn shelf_of_four_lines(alloc: Global) -> Result<MemoryShelf, AllocError> {
    let mut trips = Vec::new(alloc);
    trips.push(Trip::AppendAt {
        name: String::from_str(alloc, "o.asc")?,
        length: 47,
    })?;
    MemoryShelf::make(alloc, example(alloc)?, trips)
}

#[test]
fn heights_that_stop_have_their_first_lines(rt: HostRuntime) -> Result<(), Fail> {
    let mut shelf = shelf_of_four_lines(rt.alloc())?;
    let lines = b"ncols 4\nnrows 3\nxllcorner 2000\nyllcorner -2000\n".as_slice();
    let end = End {
        status: 5,
        out: b"",
        err: b"sgm: cannot write heights\n",
        outputs: [Some(DISPARITIES), Some(lines), None],
    };
    let line = "match l.pgm r.pgm c.json o";
    assert!(rt; ends_by(&rt, rt.alloc(), line, &mut shelf, &OpenGate, end)?);
    Ok(())
}
