//! That each place has its call, and that these run at once.

use sgm_recorders::Meeting;
use sgm_threads::in_threads;
use sgm_work::Gate;
use std::test::Fail;

#[test]
fn each_place_is_changed_once(rt: HostRuntime) -> Result<(), Fail> {
    for count in [0, 1, 2, 5] {
        let mut places = vec![in rt.alloc(); 10usize; count]?;
        in_threads(
            &rt,
            &|at, place: &mut usize| *place = place.wrapping_add(at),
            places.as_mut_slice(),
        );
        let wanted = (0..count).map(|at| at.wrapping_add(10));
        assert!(rt; places.iter().copied().eq(wanted), "{count} places");
    }
    Ok(())
}

// None goes on before the others have begun.
#[test]
fn three_places_at_once(rt: HostRuntime) -> Result<(), Fail> {
    let meeting = Meeting::of(3);
    in_threads(&rt, &|at, _: &mut u8| meeting.at(at as u32, 0), &mut [0; 3]);
    assert!(rt; meeting.has_met());
    Ok(())
}
