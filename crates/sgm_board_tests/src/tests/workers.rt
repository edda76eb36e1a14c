//! When the gate is called, that workers are at work at once, and what the caller finishes.
ghost use Rattle.std.specs.Prelude.{◌≡◌, ◌≤◌, IfOk};
ghost use Rattle.sgm_base.specs.declared.limits.TheConstants.{MAX_STRIPS, MAX_WORKERS};
ghost use Rattle.sgm_strip.specs.Cuts.{CutParts};
ghost use Rattle.sgm_strip.specs.Scenes.{SceneParts, row_length};
ghost use Rattle.sgm_strip.specs.Strips.{AreComplete};
ghost use Rattle.sgm_board.specs.Settled.{AreSettled};

use super::making::{board_of, fronts_of, only_of, parcels_of, row_of, scene_of};
use super::sums::are_whole;
use sgm_recorders::{Meeting, ONE_AT_THREE, Recorder};
use sgm_strip::{Cut, Front, Parcel, Row, Scene, Visit};
use sgm_work::{CALLER, Gate, Matched, OpenGate, finish, match_all, scan};
use std::alloc::Global;
use std::test::Fail;
use std::thread::Threads;

/// A scene by so many strips and workers.
pub(super) fn matched_of<R: Threads + Sync, G: Gate + Sync>(
    rt: &R,
    alloc: Global,
    scene: &Scene,
    strips: u32,
    workers: u32,
    gate: &G,
) -> Result<Matched, Fail>
    requires strips { (1 ≤ strips) × (strips ≤ MAX_STRIPS) }
    requires workers { (1 ≤ workers) × (workers ≤ MAX_WORKERS) }
    ensures { IfOk result (λ found. AreComplete scene.now found.parcels.items) }
{
    let cut = Cut::even(scene.size().height, strips);
    let parcels = parcels_of(alloc, scene, cut)?;
    let fronts = fronts_of(alloc, scene, cut)?;
    Ok(match_all(rt, alloc, parcels, fronts, workers, gate)?)
}

/// The example by so many strips and workers.
fn matched<R: Threads + Sync, G: Gate + Sync>(
    rt: &R,
    alloc: Global,
    strips: u32,
    workers: u32,
    gate: &G,
) -> Result<Matched, Fail>
    requires strips { (1 ≤ strips) × (strips ≤ MAX_STRIPS) }
    requires workers { (1 ≤ workers) × (workers ≤ MAX_WORKERS) }
{
    let scene = scene_of(alloc)?;
    matched_of(rt, alloc, &scene, strips, workers, gate)
}

/// Whether the visits are those of all strips, in this order.
fn goes_through(visits: &[Visit], strips: u32, down: bool) -> bool {
    let order = visits.iter().map(|visit| visit.strip);
    if down {
        order.eq(0..strips)
    } else {
        order.rev().eq(0..strips)
    }
}

fn goes_down(front: &Front) -> bool {
    front.dir().offset().1 > 0
}

/// Whether all parcels of so many strips have their sums, and all six fronts went through them in
/// their order.
fn is_whole(found: &Matched, strips: u32) -> bool {
    let parcels = &found.parcels;
    let fronts = &found.fronts;
    are_whole(parcels, strips as usize)
        && fronts.len() == 6
        && fronts.iter().all(|front| goes_through(front.visits(), strips, goes_down(front)))
}

#[test]
fn sums_are_the_same_whatever_the_strips_and_the_workers(rt: HostRuntime) -> Result<(), Fail> {
    for (strips, workers) in [(1, 1), (2, 3), (3, 1), (3, 2), (3, 16)] {
        let found = matched(&rt, rt.alloc(), strips, workers, &OpenGate)?;
        assert!(rt;
            is_whole(&found, strips),
            "{strips} strips, {workers} workers"
        );
    }
    Ok(())
}

// The first scan passes on all fronts that go down through all strips, and each that goes up
// through the last one; each scan after it, these through one strip more.
#[test]
fn one_worker_by_board(rt: HostRuntime) -> Result<(), Fail> {
    let recorder = Recorder::new();
    let found = matched(&rt, rt.alloc(), 3, 1, &recorder)?;
    assert!(rt; recorder.has(&ONE_AT_THREE));
    for front in &found.fronts {
        assert!(rt; front.visits().iter().all(|visit| visit.worker == 0));
    }
    Ok(())
}

/// Whether a front was passed on by this worker.
fn is_by(front: &Front, worker: u32) -> bool {
    front.visits().iter().any(|visit| visit.worker == worker)
}

/// Whether each visit by one of so many workers is of a strip with which that worker came.
fn are_of_comers(front: &Front, meeting: &Meeting, workers: u32) -> bool {
    front.visits().iter().all(|visit| visit.worker >= workers
        || meeting.has_come(visit.worker, visit.strip))
}

// Each worker holds one of the two strips while the other claims, and so gets the three fronts that
// begin there.
#[test]
fn two_workers_overlap(rt: HostRuntime) -> Result<(), Fail> {
    let meeting = Meeting::of(2);
    let found = matched(&rt, rt.alloc(), 2, 2, &meeting)?;
    assert!(rt; meeting.has_met());
    for worker in 0..2 {
        assert!(rt; found.fronts.iter().any(|front| is_by(front, worker)));
    }
    assert!(rt;
        found
            .fronts
            .iter()
            .all(|front| are_of_comers(front, &meeting, 2))
    );
    assert!(rt; are_whole(&found.parcels, 2));
    Ok(())
}

#[test]
fn three_workers_overlap(rt: HostRuntime) -> Result<(), Fail> {
    let meeting = Meeting::of(3);
    let found = matched(&rt, rt.alloc(), 3, 3, &meeting)?;
    assert!(rt; meeting.has_met());
    assert!(rt; are_whole(&found.parcels, 3));
    Ok(())
}

/// The parcels and the fronts, once the caller has handed on what is left.
pub(super) fn finish_all(
    mut parcels: Vec<Parcel>,
    mut fronts: Vec<Front>,
    spare: &mut Row,
) -> (Vec<Parcel>, Vec<Front>)
    requires settled { (scene : SceneParts) × (cut : CutParts) × (spare.old ≡ row_length scene)
        × AreSettled scene cut parcels.items fronts.items }
{
    finish(parcels.as_mut_slice(), fronts.as_mut_slice(), spare);
    (parcels, fronts)
}

/// The parcels and fronts of a board of three strips after one scan, once the caller has handed on
/// what was left.
fn finished(alloc: Global, scene: &Scene) -> Result<(Vec<Parcel>, Vec<Front>), Fail> {
    let mut spare = row_of(alloc, scene)?;
    let (board, passes) = board_of(alloc, scene, 3, 1)?;
    let mut pass = only_of(&board, passes)?;
    if scan(&board, &mut pass, &mut spare, &OpenGate) != 12 {
        return Err("twelve fronts are passed on")?;
    }
    let (parcels, fronts) = board.close(pass);
    Ok(finish_all(parcels, fronts, &mut spare))
}

/// Whether a front went through all three strips, and so many times by the caller.
fn went_through(front: &Front, by_caller: usize) -> bool {
    let caller = front.visits().iter().filter(|visit| visit.worker == CALLER);
    goes_through(front.visits(), 3, goes_down(front)) && caller.count() == by_caller
}

/// Whether a front went through all three strips: one that goes up twice by the caller, another
/// never.
fn went_on(front: &Front) -> bool {
    went_through(front, if goes_down(front) { 0 } else { 2 })
}

// One scan takes the fronts that go down through all three strips, and those that go up through the
// last one alone.
#[test]
fn finish_goes_on_where_a_scan_ended(rt: HostRuntime) -> Result<(), Fail> {
    let scene = scene_of(rt.alloc())?;
    let (parcels, fronts) = finished(rt.alloc(), &scene)?;
    assert!(rt; are_whole(&parcels, 3));
    assert!(rt; fronts.len() == 6 && fronts.iter().all(|front| went_on(front)));
    Ok(())
}
