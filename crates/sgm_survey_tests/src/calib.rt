//! The plain calibration, and one text of each fault. More are stored cases of `sgm_cases`.

use sgm_calib::{Calib, CalibError, CalibFault, Key, read};
use std::alloc::Global;

fn fault_of(alloc: Global, text: &str) -> Option<CalibFault> {
    match read(alloc, text.as_bytes()) {
        Err(CalibError::Fault(fault)) => Some(fault),
        _ => None,
    }
}

const TOP: Key = Key {
    number: 1,
    index: 0,
};

const VERSION: Key = Key {
    number: 2,
    index: 0,
};

const COUNT: Key = Key {
    number: 5,
    index: 0,
};

const ADAPT: Key = Key {
    number: 50,
    index: 0,
};

const FINE: Key = Key {
    number: 51,
    index: 0,
};

/// Version 2, which doesn't say whether its penalties follow the image.
const WITHOUT_ADAPT: &str =
    "{\"version\":2,\"disparities\":{\"first\":0,\"count\":2},\"census\":{\"width\":3,\"height\":3},\"penalties\":{\"p1\":1,\"p2\":3}}";

/// Version 3, which doesn't say whether its disparities are made finer.
const WITHOUT_FINE: &str =
    "{\"version\":3,\"disparities\":{\"first\":0,\"count\":2},\"census\":{\"width\":3,\"height\":3},\"penalties\":{\"p1\":1,\"p2\":3,\"adapt\":false}}";

const FAULTS: [(&str, CalibFault); 9] = [
    ("{", CalibFault::Json),
    ("[]", CalibFault::Type_(TOP)),
    ("{}", CalibFault::Missing(VERSION)),
    ("{\"version\":4}", CalibFault::Version),
    ("{\"version\":1,\"x\":0}", CalibFault::Unknown(TOP)),
    (
        "{\"version\":1,\"disparities\":{\"first\":0,\"count\":0}}",
        CalibFault::Range(COUNT),
    ),
    (
        "{\"version\":1,\"disparities\":{\"first\":0,\"count\":1.5}}",
        CalibFault::Type_(COUNT),
    ),
    (WITHOUT_ADAPT, CalibFault::Missing(ADAPT)),
    (WITHOUT_FINE, CalibFault::Missing(FINE)),
];

#[test]
fn one_text_of_each_fault(rt: HostRuntime) {
    for (text, fault) in &FAULTS {
        assert!(rt; fault_of(rt.alloc(), text) == Some(*fault));
    }
}

/// Whether these are the settings that stand where there is no calibration.
fn is_plain(calib: &Calib) -> bool {
    let (span, pen) = (calib.span(), calib.pen());
    (span.first, span.count) == (0, 64)
        && (pen.p1(), pen.p2()) == (10, 120)
        && !pen.is_adaptive()
        && calib.camera().is_none()
}

#[test]
fn plain_settings(rt: HostRuntime) {
    assert!(rt; is_plain(&Calib::plain()));
}

#[test]
fn paths_of_keys(rt: HostRuntime) {
    for (number, front, back) in &[
        (5, "disparities.count", ""),
        (49, "regions[", "].base"),
        (50, "penalties.adapt", ""),
        (51, "disparities.fine", ""),
        (55, "pose.matrix", ""),
        (255, "", ""),
    ] {
        let key = Key {
            number: *number,
            index: 0,
        };
        assert!(rt; key.front() == *front && key.back() == *back);
    }
}
