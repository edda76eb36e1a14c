use sgm_energy::{Dir, Pen};

#[test]
fn penalties_in_range(rt: HostRuntime) {
    for (p1, p2, within) in &[
        (1, 1, true),
        (10, 120, true),
        (4000, 4000, true),
        (0, 1, false),
        (3, 2, false),
        (1, 4001, false),
    ] {
        assert!(rt; Pen::make(*p1, *p2).is_some() == *within);
    }
}

/// A fixed and an adaptive pen with the same penalties.
fn pens() -> Option<(Pen, Pen)> {
    Some((Pen::make(10, 120)?, Pen::adaptive(10, 120)?))
}

#[test]
fn penalties_that_follow_the_image(rt: HostRuntime) {
    let (fixed, adaptive) = pens().expect(&rt, "in range");
    assert!(rt; !fixed.is_adaptive() && adaptive.is_adaptive());
    assert!(rt; Pen::adaptive(0, 1).is_none() && Pen::adaptive(3, 2).is_none());
    for (here, before, far) in &[
        (Some(100), Some(100), 120),
        (Some(100), Some(103), 40),
        (Some(103), Some(100), 40),
        (Some(100), Some(120), 10),
        (Some(0), Some(255), 10),
        (None, Some(5), 120),
        (Some(5), None, 120),
        (None, None, 120),
    ] {
        assert!(rt; adaptive.far(*here, *before) == *far);
        assert!(rt; fixed.far(*here, *before) == 120);
    }
}

/// Whether a direction has this step and this front, and is the one that has this front.
fn is_as_wanted(dir: Dir, offset: (i32, i32), front: Option<usize>) -> bool {
    let found = match front {
        Some(front) => Dir::from_front(front),
        None => Some(dir),
    };
    dir.offset() == offset
        && dir.is_level() == front.is_none()
        && dir.front() == front
        && found == Some(dir)
}

#[test]
fn steps_and_fronts_of_directions(rt: HostRuntime) {
    for (dir, offset, front) in &[
        (Dir::Right, (1, 0), None),
        (Dir::Left, (-1, 0), None),
        (Dir::Down, (0, 1), Some(0)),
        (Dir::DownRight, (1, 1), Some(1)),
        (Dir::DownLeft, (-1, 1), Some(2)),
        (Dir::Up, (0, -1), Some(3)),
        (Dir::UpRight, (1, -1), Some(4)),
        (Dir::UpLeft, (-1, -1), Some(5)),
    ] {
        assert!(rt; is_as_wanted(*dir, *offset, *front));
    }
    assert!(rt; Dir::from_front(6) == None);
}

#[test]
fn strips_from_the_top_and_from_the_bottom(rt: HostRuntime) {
    assert!(rt; Dir::DownLeft.position(1, 5) == 1);
    assert!(rt; Dir::UpRight.position(1, 5) == 3);
    assert!(rt; Dir::Up.position(0, 1) == 0);
}
