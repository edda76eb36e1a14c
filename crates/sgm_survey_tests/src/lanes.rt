//! Each kernel over a chunk of sixteen and a rest, by numbers worked out by hand. Stored cases of
//! `sgm_cases` have each kernel at each length up to 130.

ghost use Rattle.std.specs.Prelude.{◌≡◌, ◌<◌, ◌≤◌, length, All};

use sgm_lanes::{add, add_step, hamming, hamming_to, least, step};

const WORDS: [u64; 17] = [
    0,
    1,
    2,
    3,
    4,
    5,
    6,
    7,
    8,
    9,
    10,
    11,
    12,
    13,
    14,
    15,
    u64::MAX,
];

#[test]
fn differing_bits_are_counted(rt: HostRuntime) {
    let mut counts = [99u8; 17];
    hamming(&WORDS, &[0; 17], &mut counts);
    assert!(rt; counts == [0, 1, 1, 2, 1, 2, 2, 3, 1, 2, 2, 3, 2, 3, 3, 4, 64]);
    hamming_to(15, &WORDS, &mut counts);
    assert!(rt; counts == [4, 3, 3, 2, 3, 2, 2, 1, 3, 2, 2, 1, 2, 1, 1, 0, 60]);
}

#[test]
fn the_least_may_stand_anywhere(rt: HostRuntime) {
    let mut values = [9u16; 17];
    for at in 0..17usize {
        values[at] = 3;
        assert!(rt; least(&values[at..]) == 3 && least(&values[..at + 1]) == 3);
        values[at] = 9;
    }
}

#[test]
fn values_are_added(rt: HostRuntime) {
    let mut sums = [32_496u16; 17];
    add(&mut sums, &[4062; 17]);
    assert!(rt; sums == [36_558; 17]);
}

/// Whether the step from at most 17 values gives these, and adds them.
fn adds_step<const BACK: bool>(prev: &[u16], cost: &[u8], p1: u16, p2: u16, want: &[u16]) -> bool
    requires some { 0 < length prev.now }
    requires few { length prev.now ≤ 17 }
    requires cost_length { length cost.now ≡ length prev.now }
    requires penalties { (p1 ≤ p2) × (p2 ≤ 4000) }
    requires values { All (λ x. x < 4063) prev.now }
    requires costs { All (λ c. c ≤ 62) cost.now }
{
    let (mut again, mut sums) = ([0u16; 17], [0u16; 17]);
    let (count, floor) = (prev.len(), least(prev));
    add_step::<BACK>(
        prev,
        floor,
        cost,
        p1,
        p2,
        &mut again[..count],
        &mut sums[..count],
    );
    &again[..count] == want && &sums[..count] == want
}

/// Whether the step from at most 17 values gives these, alone and where it adds, in both orders.
fn steps_to(prev: &[u16], cost: &[u8], p1: u16, p2: u16, want: &[u16]) -> bool
    requires some { 0 < length prev.now }
    requires few { length prev.now ≤ 17 }
    requires cost_length { length cost.now ≡ length prev.now }
    requires penalties { (p1 ≤ p2) × (p2 ≤ 4000) }
    requires values { All (λ x. x < 4063) prev.now }
    requires costs { All (λ c. c ≤ 62) cost.now }
{
    let mut room = [0u16; 17];
    let (count, floor) = (prev.len(), least(prev));
    let into = &mut room[..count];
    step(prev, floor, cost, p1, p2, into);
    let forwards = adds_step::<false>(prev, cost, p1, p2, want);
    let back = adds_step::<true>(prev, cost, p1, p2, want);
    &*into == want && forwards && back
}

#[test]
fn steps_from_values_to_values(rt: HostRuntime) {
    assert!(rt; steps_to(&[0, 5], &[5, 0], 1, 3, &[5, 1]));
    assert!(rt; steps_to(&[5, 1], &[0, 5], 1, 3, &[1, 5]));
    assert!(rt; steps_to(&[7], &[62], 1, 3, &[62]));
    // each of the four ways is the least once
    assert!(rt; steps_to(&[10, 2, 9, 20], &[1, 2, 3, 4], 4, 6, &[5, 2, 7, 10]));
    // over a chunk's end, whose neighbours are on both sides of it
    let prev = [0, 9, 9, 9, 9, 9, 9, 9, 9, 9, 9, 9, 9, 9, 9, 9, 0];
    let want = [2, 3, 5, 5, 5, 5, 5, 5, 5, 5, 5, 5, 5, 5, 5, 3, 2];
    assert!(rt; steps_to(&prev, &[2; 17], 1, 3, &want));
}
