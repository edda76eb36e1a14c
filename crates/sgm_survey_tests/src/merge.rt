ghost use Rattle.std.specs.Prelude.{◌≤◌};
ghost use Rattle.sgm_grid.specs.declared.limits.TheConstants.{MAX_BRIDGE};

use sgm_grid::{AscError, GridSpec, Keep, bridge, read_asc};
use sgm_merge::{Merge, fits};
use std::alloc::{AllocError, Global};

#[derive(Debug, Drop)]
enum Fail {
    Text,
    Cells,
    Memory,
}

impl From<AllocError> for Fail {
    fn from(_error: AllocError) -> Fail {
        Fail::Memory
    }
}

impl From<AscError> for Fail {
    fn from(_error: AscError) -> Fail {
        Fail::Text
    }
}

const SITE: GridSpec = GridSpec {
    west: -20,
    south: -10,
    cell: 10,
    cols: 5,
    rows: 3,
};

const WEST: &[u8] =
    b"ncols 3 nrows 3 xllcorner -30 yllcorner -10 cellsize 10 NODATA_value -2147483648 \
    99 5 -2147483648 99 -2147483648 -2147483648 99 -6 -2147483648";

const EAST: &[u8] =
    b"ncols 3 nrows 3 xllcorner 0 yllcorner -10 cellsize 10 NODATA_value -2147483648 \
    8 -2147483648 -2147483648 12 -2147483648 15 -5 2 40";

const SOUTH: &[u8] =
    b"ncols 4 nrows 2 xllcorner -20 yllcorner -20 cellsize 10 NODATA_value -2147483648 \
    -3 -2147483648 10 1 77 77 77 77";

/// The merged grid of all three, as a text.
fn merged(alloc: Global, keep: Keep, most: u32) -> Result<Vec<u8>, Fail>
    requires { most ≤ MAX_BRIDGE }
{
    let west = read_asc(alloc, WEST)?;
    let east = read_asc(alloc, EAST)?;
    let south = read_asc(alloc, SOUTH)?;
    if !(fits(SITE, west.spec()) && fits(SITE, east.spec()) && fits(SITE, south.spec())) {
        return Err(Fail::Cells);
    }
    let mut merge = Merge::make(alloc, SITE, keep)?;
    merge.add(&west);
    merge.add(&east);
    merge.add(&south);
    let grid = bridge(alloc, &merge.grid(alloc)?, most)?;
    let mut text = Vec::new(alloc);
    grid.write_asc(&mut text)?;
    Ok(text)
}

#[test]
fn means_with_bridges(rt: HostRuntime) -> Result<(), Fail> {
    let text = merged(rt.alloc(), Keep::Mean, 2)?;
    assert!(rt;
        text.as_slice()
            == b"ncols 5\nnrows 3\nxllcorner -20\nyllcorner -10\ncellsize 10\n\
        NODATA_value -2147483648\n5 7 8 -2147483648 -2147483648\n1 -2147483648 12 14 15\n\
        -4 0 3 2 40\n"
                .as_slice()
    );
    Ok(())
}

#[test]
fn the_highest_without_bridges(rt: HostRuntime) -> Result<(), Fail> {
    let text = merged(rt.alloc(), Keep::Highest, 0)?;
    assert!(rt;
        text.as_slice()
            == b"ncols 5\nnrows 3\nxllcorner -20\nyllcorner -10\ncellsize 10\n\
        NODATA_value -2147483648\n5 -2147483648 8 -2147483648 -2147483648\n\
        -2147483648 -2147483648 12 -2147483648 15\n-3 -2147483648 10 2 40\n"
                .as_slice()
    );
    Ok(())
}

/// A cell of another side, and sides that lie a part of a cell apart.
#[test]
fn other_cells(rt: HostRuntime) -> Result<(), Fail> {
    assert!(rt;
        fits(
            SITE,
            GridSpec {
                west: 2_000_000_000,
                south: -2_000_000_000,
                ..SITE
            }
        )
    );
    assert!(rt; !fits(SITE, GridSpec { cell: 5, ..SITE }));
    assert!(rt; !fits(SITE, GridSpec { west: -21, ..SITE }));
    assert!(rt; !fits(SITE, GridSpec { south: 5, ..SITE }));
    Ok(())
}
