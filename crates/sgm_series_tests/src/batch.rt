//! Batches of the worked example. What they are to give is worked by hand.
ghost use Rattle.std.specs.Prelude.{◌≡◌, ◌≤◌, IfOk, vec_len};
ghost use Rattle.sgm_draws.specs.declared.limits.TheConstants.{MAX_TICKETS};

use sgm_app::{MadeTexts, Refusal, TextsError};
use sgm_base::Side;
use sgm_batch::{Inputs, work_batch};
use sgm_example::{CALIBRATION, LEFT, RIGHT};
use sgm_pgm::PgmFault;
use sgm_recorders::{Meeting, Recorder};
use sgm_work::Gate;
use std::alloc::{AllocError, Global};
use std::process::Abort;
use std::sync::Wait;
use std::test::Fail;
use std::thread::Threads;

/// The disparity image of the worked example: three times the samples 16 16 32 32 32.
const DISPARITIES: &[u8] =
    b"P5\n5 3\n65535\n\x00\x10\x00\x10\x00\x20\x00\x20\x00\x20\x00\x10\x00\x10\x00\x20\x00\x20\x00\x20\x00\x10\x00\x10\x00\x20\x00\x20\x00\x20";

/// Under the plain calibration there is one disparity, 0, and its sample is 16.
const PLAIN: &[u8] =
    b"P5\n5 3\n65535\n\x00\x10\x00\x10\x00\x10\x00\x10\x00\x10\x00\x10\x00\x10\x00\x10\x00\x10\x00\x10\x00\x10\x00\x10\x00\x10\x00\x10\x00\x10";

const SUMMARY: &[u8] = b"valid 15 of 15\n";

/// No image.
const NOTHING: &[u8] = b"nothing";

fn calibration(alloc: Global) -> Result<Vec<u8>, AllocError> {
    let mut text = Vec::new(alloc);
    for part in CALIBRATION {
        text.extend_from_slice(part.as_bytes())?;
    }
    Ok(text)
}

fn inputs(alloc: Global, right: &[u8], calib: Option<Vec<u8>>) -> Result<Inputs, AllocError> {
    Ok(Inputs {
        left: LEFT.to_vec(alloc)?,
        right: right.to_vec(alloc)?,
        calib,
    })
}

/// The worked example, a pair whose right image is none, and the example's pair under the plain
/// calibration.
fn batch(alloc: Global) -> Result<Vec<Inputs>, AllocError>
    ensures { IfOk result (λ batch. vec_len batch ≡ 3) }
{
    let mut batch = Vec::new(alloc);
    batch.push(inputs(alloc, RIGHT, Some(calibration(alloc)?))?)?;
    batch.push(inputs(alloc, NOTHING, None)?)?;
    batch.push(inputs(alloc, RIGHT, None)?)?;
    Ok(batch)
}

/// The texts are those of the worked example's pair; the heights and the report are there or not.
fn assert_texts<R: Abort>(
    rt: &R,
    made: Result<MadeTexts, TextsError>,
    disparities: &[u8],
    with_grid: bool,
) {
    match made {
        Ok(texts) => {
            assert!(rt; texts.disparity.as_slice() == disparities);
            assert!(rt; texts.summary.as_slice() == SUMMARY);
            assert!(rt; texts.heights.is_some() == with_grid);
            assert!(rt; texts.report.is_some() == with_grid);
        }
        Err(_) => panic!(rt; "a pair of the worked example is refused"),
    }
}

/// The pair is refused, since its right image is none.
fn assert_refused<R: Abort>(rt: &R, made: Result<MadeTexts, TextsError>) {
    match made {
        Err(TextsError::Refused(Refusal::Pgm(Side::Right, PgmFault::NotPgm))) => {}
        _ => panic!(rt; "it isn't refused for its right image"),
    }
}

/// Each entry gets what its own inputs call for, by so many workers, who pass the gate. Gives the
/// worker of each piece with its entry.
fn assert_batch<R: Threads + Wait + Sync + Abort, G: Gate + Sync>(
    rt: &R,
    alloc: Global,
    workers: u32,
    gate: &G,
) -> Result<[(u32, u32); 3], AllocError>
    requires { (1 ≤ workers) × (workers ≤ MAX_TICKETS) }
{
    let batch = batch(alloc)?;
    let mut pieces = work_batch(rt, alloc, batch.as_slice(), workers, gate)?.into_iter();
    let (Some(first), Some(second), Some(third)) = (pieces.next(), pieces.next(), pieces.next())
    else {
        panic!(rt; "a piece for each of three entries is missing")
    };
    assert!(rt; pieces.next().is_none());
    assert!(rt; (first.entry(), second.entry(), third.entry()) == (0, 1, 2));
    let made = [
        (first.worker(), first.entry()),
        (second.worker(), second.entry()),
        (third.worker(), third.entry()),
    ];
    assert_texts(rt, first.into_made(), DISPARITIES, true);
    assert_refused(rt, second.into_made());
    assert_texts(rt, third.into_made(), PLAIN, false);
    Ok(made)
}

#[test]
fn one_worker_makes_each_piece_of_its_entry(rt: HostRuntime) -> Result<(), Fail> {
    let recorder = Recorder::new();
    let made = assert_batch(&rt, rt.alloc(), 1, &recorder)?;
    assert!(rt; recorder.has(&[(0, 0), (0, 1), (0, 2)]));
    assert!(rt; recorder.has(&made));
    Ok(())
}

#[test]
fn two_workers_make_each_piece_of_its_entry(rt: HostRuntime) -> Result<(), Fail> {
    let meeting = Meeting::of(2);
    let made = assert_batch(&rt, rt.alloc(), 2, &meeting)?;
    assert!(rt; meeting.has_met());
    assert!(rt;
        made.iter()
            .all(|&(worker, entry)| meeting.has_come(worker, entry))
    );
    Ok(())
}
