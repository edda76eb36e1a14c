//! What a change writes, and how it ends else. More are stored cases of `sgm_cases`.

use super::ended::{End, ends, refused};
use super::fixtures::{HEIGHTS, add};
use std::alloc::{AllocError, Global};
use std::test::Fail;
use std::thread::Threads;

/// The heights of the worked example a month later: the first cell is 1 mm higher, the fourth has
/// come and the fifth is gone.
const LATER: &[u8] =
    b"ncols 4\nnrows 3\nxllcorner 2000\nyllcorner -2000\ncellsize 1000\nNODATA_value -2147483648\n51000 50000 50000 50000\n-2147483648 50000 50000 -2147483648\n50000 50000 50000 -2147483648\n";

const DIFFERENCE: &[u8] =
    b"ncols 4\nnrows 3\nxllcorner 2000\nyllcorner -2000\ncellsize 1000\nNODATA_value -9999999999\n1000 0 0 -9999999999\n-9999999999 0 0 -9999999999\n0 0 0 -9999999999\n";

const VOLUMES: &[u8] = b"both,come,gone,empty,fill,cut\n8,1,1,2,1000000000,0\n";

const COARSE: &[u8] =
    b"ncols 4\nnrows 3\nxllcorner 2000\nyllcorner -2000\ncellsize 2000\nNODATA_value -2147483648\n1 2 3 4 5 6 7 8 9 10 11 12\n";

/// Two grids under the names e.asc and l.asc.
fn grids(
    alloc: Global,
    earlier: &[u8],
    later: &[u8],
) -> Result<Vec<(String, Vec<u8>)>, AllocError> {
    let mut files = Vec::new(alloc);
    add(alloc, &mut files, "e.asc", earlier)?;
    add(alloc, &mut files, "l.asc", later)?;
    Ok(files)
}

/// Whether a change between two grids ends so.
fn change_ends<R: Threads + Sync>(
    rt: &R,
    alloc: Global,
    earlier: &[u8],
    later: &[u8],
    end: End,
) -> Result<bool, Fail> {
    let files = grids(alloc, earlier, later)?;
    ends(rt, alloc, files, "change e.asc l.asc o", end)
}

#[test]
fn a_change_writes_the_difference_and_the_volumes(rt: HostRuntime) -> Result<(), Fail> {
    let end = End {
        status: 0,
        out: b"compared 8 of 12\n",
        err: b"",
        outputs: [None, Some(DIFFERENCE), Some(VOLUMES)],
    };
    assert!(rt; change_ends(&rt, rt.alloc(), HEIGHTS, LATER, end)?);
    Ok(())
}

#[test]
fn grids_that_do_not_read_or_suit_are_refused(rt: HostRuntime) -> Result<(), Fail> {
    let alloc = rt.alloc();
    let end = refused(3, "sgm: earlier: word 0 is not as expected\n");
    assert!(rt; change_ends(&rt, alloc, b"", b"", end)?);

    // Without the last value, of eleven bytes, and its line's end.
    let short = &HEIGHTS[..HEIGHTS.len() - 12];
    let end = refused(3, "sgm: later: 11 heights, 12 needed\n");
    assert!(rt; change_ends(&rt, alloc, HEIGHTS, short, end)?);

    // With cells of 2000.
    let end = refused(3, "sgm: grids differ at word 9\n");
    assert!(rt; change_ends(&rt, alloc, HEIGHTS, COARSE, end)?);
    Ok(())
}
