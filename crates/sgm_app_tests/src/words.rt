//! The words, one check after the other. More are stored cases of `sgm_cases`.

use crate::tests::fixtures::words_of;
use sgm_base::{MAX_GRID_BYTES, MAX_LIST_BYTES};
use sgm_list::MAX_ENTRIES;
use sgm_words::{OperandWords, UsageFault, read_words};
use std::alloc::{AllocError, Global};
use std::test::Fail;

/// The fault of the words of a line; None where they have none.
fn fault_of(alloc: Global, line: &str) -> Result<Option<UsageFault>, AllocError> {
    let words = words_of(alloc, line)?;
    Ok(read_words(&words).err())
}

#[test]
fn each_fault_is_the_first_that_stands(rt: HostRuntime) -> Result<(), Fail> {
    let alloc = rt.alloc();
    assert!(rt; read_words(&[]) == Err(UsageFault::NoCommand));
    for (line, fault) in &[
        ("stereo a b - o", UsageFault::UnknownCommand),
        ("match a b -", UsageFault::TooFew { have: 3, need: 4 }),
        ("demo", UsageFault::TooFew { have: 0, need: 1 }),
        ("match a  - o", UsageFault::EmptyName { position: 2 }),
        (
            "trace a b - sideways 2 y 1",
            UsageFault::BadDirection { position: 4 },
        ),
        ("demo x", UsageFault::BadNumber { position: 1 }),
        ("demo 4294967296", UsageFault::BadNumber { position: 1 }),
        (
            "match a b - o strips=0",
            UsageFault::BadOption { position: 5 },
        ),
        (
            "match a b - o strips=2 strips=2",
            UsageFault::RepeatedOption { position: 6 },
        ),
        (
            "match o.pgm b - o",
            UsageFault::OutputIsInput { position: 1 },
        ),
    ] {
        assert!(rt; fault_of(alloc, line)? == Some(*fault));
    }
    Ok(())
}

#[test]
fn operands_by_name_have_each_name_in_its_place(rt: HostRuntime) {
    let operands = OperandWords::named("west", "east", "survey", "mine");
    assert!(rt; operands.left() == "west" && operands.right() == "east");
    assert!(rt; operands.calib() == "survey" && operands.out() == "mine");
}

// Contracts cite the limits by name, so that no clause says their values.
#[test]
fn limits_as_numbers(rt: HostRuntime) {
    assert!(rt; (MAX_GRID_BYTES, MAX_LIST_BYTES, MAX_ENTRIES) == (268_435_456, 1_048_576, 1000));
}
