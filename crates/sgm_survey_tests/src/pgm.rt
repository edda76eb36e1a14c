//! Texts of images, and their first faults. More are stored runs of `sgm_cases`.

use sgm_pgm::{PgmError, PgmFault, read};
use std::alloc::Global;

fn fault_of(alloc: Global, text: &[u8]) -> Option<PgmFault> {
    match read(alloc, text) {
        Err(PgmError::Fault(fault)) => Some(fault),
        _ => None,
    }
}

/// A text, and the width, the height, the greatest value and the samples that are read from it.
type Read<'a> = (&'a [u8], (u32, u32), u16, &'a [u16]);

const READ: [Read<'static>; 5] = [
    (b"P5\n2 1\n255\n\x00\xff", (2, 1), 255, &[0, 255]),
    (
        b"P5\n# Created by GIMP\n2 1\n65535\n\x00\x01\xff\xff",
        (2, 1),
        65535,
        &[1, 65535],
    ),
    // A rest.
    (b"P5 1 1 255\n\x07P5", (1, 1), 255, &[7]),
    // White bytes.
    (
        b"P5 \t\n\x0b\x0c\r2\x0b1\x0c9\x0c\x01\x02",
        (2, 1),
        9,
        &[1, 2],
    ),
    // Comments for white bytes.
    (b"P5#a\n2#b\n1#c\n9\n\x01\x02", (2, 1), 9, &[1, 2]),
];

fn is_read(alloc: Global, text: &[u8], sides: (u32, u32), maxval: u16, samples: &[u16]) -> bool {
    match read(alloc, text) {
        Ok(image) => {
            let size = image.size();
            (size.width, size.height) == sides
                && image.maxval() == maxval
                && image.samples() == samples
        }
        Err(_) => false,
    }
}

#[test]
fn texts_are_read(rt: HostRuntime) {
    for (text, sides, maxval, samples) in &READ {
        assert!(rt; is_read(rt.alloc(), text, *sides, *maxval, samples));
    }
}

const FAULTS: [(&[u8], PgmFault); 12] = [
    (b"", PgmFault::NotPgm),
    (b"P5\n2 1", PgmFault::HeaderShort),
    (b"P5\n2 x1\n", PgmFault::HeaderByte { at: 5 }),
    (b"P5 1 1 255#", PgmFault::HeaderByte { at: 10 }),
    (b"P5 4097 1 255\n", PgmFault::SizeRange),
    (b"P5 0 1 0\n", PgmFault::SizeRange),
    (
        b"P5 9999999999999999999999999999999999999999 1 255\n",
        PgmFault::SizeRange,
    ),
    (b"P5 1 1 65536\n\x00", PgmFault::MaxvalRange),
    (
        b"P5 2 2 255\n\x01\x02\x03",
        PgmFault::RasterShort { have: 3, need: 4 },
    ),
    (
        b"P5 4096 4096 65535\n",
        PgmFault::RasterShort {
            have: 0,
            need: 33_554_432,
        },
    ),
    (b"P5 2 1 15\n\x0f\x10", PgmFault::SampleAbove { index: 1 }),
    (
        b"P5 2 1 300\n\x01\x2c\x01\x2d",
        PgmFault::SampleAbove { index: 1 },
    ),
];

#[test]
fn texts_have_their_first_faults(rt: HostRuntime) {
    for (text, fault) in &FAULTS {
        assert!(rt; fault_of(rt.alloc(), text) == Some(*fault));
    }
}

// An image of 5 x 3.
const TEXT: [u8; 26] =
    *b"P5\n5 3\n255\n\x01\x02\x03\x04\x05\x06\x07\x08\x09\x0a\x0b\x0c\x0d\x0e\x0f";

#[test]
fn a_text_cut_anywhere(rt: HostRuntime) {
    let alloc = rt.alloc();
    for length in 0..26 {
        let fault = if length < 2 {
            PgmFault::NotPgm
        } else if length < 11 {
            PgmFault::HeaderShort
        } else {
            PgmFault::RasterShort {
                have: length - 11,
                need: 15,
            }
        };
        assert!(rt; fault_of(alloc, &TEXT[..length]) == Some(fault));
    }
    let samples = [1, 2, 3, 4, 5, 6, 7, 8, 9, 10, 11, 12, 13, 14, 15];
    assert!(rt; is_read(alloc, &TEXT, (5, 3), 255, &samples));
}
