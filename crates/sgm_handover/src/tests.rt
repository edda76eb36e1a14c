use super::{Event, ReplayError, replay};
use sgm_energy::Dir;
use std::test::Fail;

#[test]
fn a_front_waits_for_its_next_strip(rt: HostRuntime) -> Result<(), Fail> {
    let early = [
        Event::Claim {
            worker: 0,
            strip: 1,
        },
        Event::Take {
            worker: 0,
            dir: Dir::Down,
        },
    ];
    match replay(rt.alloc(), 3, &early) {
        Ok(_) => panic!(rt; "strip 1 comes second"),
        Err(error) => assert!(rt; error == ReplayError::Illegal { at: 1 }),
    }
    let due = [
        Event::Claim {
            worker: 0,
            strip: 1,
        },
        Event::Claim {
            worker: 1,
            strip: 0,
        },
        Event::Take {
            worker: 1,
            dir: Dir::Down,
        },
        Event::Put {
            worker: 1,
            dir: Dir::Down,
        },
        Event::Return { worker: 1 },
        Event::Take {
            worker: 0,
            dir: Dir::Down,
        },
    ];
    let machine = replay(rt.alloc(), 3, &due)?;
    assert!(rt; machine.passed == [1, 0, 0, 0, 0, 0]);
    assert!(rt; machine.away == [Some(0), None, None, None, None, None]);
    assert!(rt; machine.holders.as_slice() == [None, Some(0), None].as_slice());
    Ok(())
}

const TAKE: Event = Event::Take {
    worker: 7,
    dir: Dir::Down,
};

const PUT: Event = Event::Put {
    worker: 7,
    dir: Dir::Down,
};

const RETURN: Event = Event::Return { worker: 7 };

/// One worker takes the front that goes down through three strips, and then once more.
const ALL_DOWN: [Event; 13] = [
    Event::Claim {
        worker: 7,
        strip: 0,
    },
    TAKE,
    PUT,
    RETURN,
    Event::Claim {
        worker: 7,
        strip: 1,
    },
    TAKE,
    PUT,
    RETURN,
    Event::Claim {
        worker: 7,
        strip: 2,
    },
    TAKE,
    PUT,
    RETURN,
    TAKE,
];

#[test]
fn a_front_goes_through_all_strips(rt: HostRuntime) -> Result<(), Fail> {
    let machine = replay(rt.alloc(), 3, &ALL_DOWN[..12])?;
    assert!(rt; machine.passed == [3, 0, 0, 0, 0, 0]);
    assert!(rt; machine.holders.as_slice() == [None, None, None].as_slice());
    match replay(rt.alloc(), 3, &ALL_DOWN) {
        Ok(_) => panic!(rt; "nothing is held at the end"),
        Err(error) => assert!(rt; error == ReplayError::Illegal { at: 12 }),
    }
    Ok(())
}
