//! What a merge writes, and how it ends else. More are stored cases of `sgm_cases`.

use super::ended::{End, ends, refused};
use super::fixtures::{HEIGHTS, add, example};
use std::alloc::{AllocError, Global};
use std::test::Fail;
use std::thread::Threads;

/// One cell, which is that of the fourth column in the first row of the worked example.
const CELL: &[u8] =
    b"ncols 1\nnrows 1\nxllcorner 5000\nyllcorner 0\ncellsize 1000\nNODATA_value -2147483648\n61000\n";

/// A cell that lies half a cell beside those of the worked example.
const BESIDE: &[u8] =
    b"ncols 1\nnrows 1\nxllcorner 5500\nyllcorner 0\ncellsize 1000\nNODATA_value -2147483648\n61000\n";

const MERGED: &[u8] =
    b"ncols 4\nnrows 3\nxllcorner 2000\nyllcorner -2000\ncellsize 1000\nNODATA_value -2147483648\n50000 50000 50000 61000\n50000 50000 50000 -2147483648\n50000 50000 50000 -2147483648\n";

const REPORT: &[u8] =
    b"region,cells,empty,fill,cut,lowest,highest\nall,10,2,111000000000,0,50000,61000\neast,1,0,1000000000,0,61000,61000\n";

/// The worked example, its heights, the cell, the cell beside, no grid, and this list.
fn files_with(alloc: Global, list: &str) -> Result<Vec<(String, Vec<u8>)>, AllocError> {
    let mut files = example(alloc)?;
    add(alloc, &mut files, "list", list.as_bytes())?;
    add(alloc, &mut files, "h.asc", HEIGHTS)?;
    add(alloc, &mut files, "c.asc", CELL)?;
    add(alloc, &mut files, "b.asc", BESIDE)?;
    add(alloc, &mut files, "n.asc", b"")?;
    Ok(files)
}

/// Whether a merge of a list ends so.
fn merge_ends<R: Threads + Sync>(
    rt: &R,
    alloc: Global,
    list: &str,
    line: &str,
    end: End,
) -> Result<bool, Fail> {
    ends(rt, alloc, files_with(alloc, list)?, line, end)
}

const MERGE: &str = "merge list c.json o";

#[test]
fn a_merge_writes_one_grid_and_its_regions(rt: HostRuntime) -> Result<(), Fail> {
    let end = End {
        status: 0,
        out: b"merged 10 of 12\n",
        err: b"",
        outputs: [None, Some(MERGED), Some(REPORT)],
    };
    assert!(rt; merge_ends(&rt, rt.alloc(), "h.asc\n\nc.asc\n", MERGE, end)?);
    assert!(rt; merge_ends(&rt, rt.alloc(), "c.asc\nh.asc", MERGE, end)?);
    Ok(())
}

/// Lists, and the status and the line of each. The name a.asc is absent.
const REFUSED: [(&str, u8, &str); 7] = [
    ("", 3, "sgm: list: no entries\n"),
    (
        "h.asc\nc.asc b.asc\n",
        3,
        "sgm: list: line 2 does not have one word\n",
    ),
    ("h.asc\no.csv\n", 3, "sgm: list: grid 1 is also an output\n"),
    (
        "h.asc\nb.asc\na.asc\n",
        3,
        "sgm: grid 1: not on the calibration's cells\n",
    ),
    (
        "n.asc\na.asc\n",
        3,
        "sgm: grid 0: word 0 is not as expected\n",
    ),
    ("a.asc\nn.asc\n", 4, "sgm: cannot read grid 0\n"),
    ("c.asc\nh.asc\na.asc\n", 4, "sgm: cannot read grid 2\n"),
];

#[test]
fn the_first_fault_of_a_list_or_a_grid_is_told(rt: HostRuntime) -> Result<(), Fail> {
    for (list, status, line) in &REFUSED {
        let end = refused(*status, line);
        assert!(rt; merge_ends(&rt, rt.alloc(), list, MERGE, end)?, "{line}");
    }
    Ok(())
}

#[test]
fn a_merge_needs_the_grid_of_its_calibration(rt: HostRuntime) -> Result<(), Fail> {
    let end = refused(3, "sgm: calibration: grid is missing\n");
    assert!(rt; merge_ends(&rt, rt.alloc(), "h.asc", "merge list - o", end)?);
    Ok(())
}
