//! What is left to do when no worker is at work any more.
ghost use Rattle.std.specs.Prelude.{◌≡◌, length};
ghost use Rattle.std.specs.List.{AllZip};
ghost use Rattle.sgm_energy.specs.declared.dir.Dir.{Dir};
ghost use Rattle.sgm_energy.specs.Dirs.{position_of};
ghost use Rattle.sgm_strip.specs.Cuts.{CutParts};
ghost use Rattle.sgm_strip.specs.Scenes.{SceneParts, row_length};
ghost use Rattle.sgm_strip.specs.Parcels.{ParcelParts};
ghost use Rattle.sgm_strip.specs.Fronts.{FrontParts};
ghost use Rattle.sgm_strip.specs.Strips.{AreComplete, AreStrips};
ghost use Rattle.sgm_board.specs.Settled.{AreSettled};
ghost use Rattle.sgm_work.specs.Finished.{AreFinished, CanFinish, GoesOnBy};
ghost use Rattle.sgm_work.specs.Left.{IsDoneFirst, IsFinished, KeepsOthers};

use sgm_strip::{Front, Parcel, Row, pass};

/// The number of the caller as a worker. The workers of a board have those below it.
pub const CALLER: u32 = 16;

/// Passes a front on through the strips that it hasn't visited, in its order.
fn finish_front(parcels: &mut [Parcel], front: &mut Front, spare: &mut Row)
    requires strips { AreStrips front.old.scene front.old.cut parcels.old }
    requires done { IsDoneFirst front.old.dir front.old.cut.strips
        (length front.old.visits) parcels.old }
    requires spare { spare.old ≡ row_length front.old.scene }
    ensures strips { AreStrips front.old.scene front.old.cut parcels.new }
    ensures done { IsDoneFirst front.old.dir front.old.cut.strips front.old.cut.strips parcels.new }
    ensures others { KeepsOthers front.old.dir parcels.old parcels.new }
    ensures front { IsFinished front.old front.new }
    ensures spare { spare.new ≡ spare.old }
{
    let dir = front.dir();
    let strips = parcels.len() as u32;
    for position in front.next()..strips {
        let strip = dir.position(position, strips) as usize;
        pass(&mut parcels[strip], front, spare, CALLER);
    }
}

/// Passes each front on through the strips that it hasn't visited, as the worker [`CALLER`].
/// The parcels and the fronts are as [`sgm_board::Board::close`] gives them, and `spare` has room
/// for a row of their scene. Takes no memory.
pub fn finish(parcels: &mut [Parcel], fronts: &mut [Front], spare: &mut Row)
    requires settled { CanFinish parcels.old fronts.old spare.old }
    ensures finished { (scene : SceneParts) (cut : CutParts)
        → AreSettled scene cut parcels.old fronts.old
        → AreFinished scene cut parcels.new fronts.new }
    ensures complete { (scene : SceneParts) (cut : CutParts)
        → AreSettled scene cut parcels.old fronts.old
        → AreComplete scene parcels.new }
    ensures goes_on { AllZip (GoesOnBy 16) fronts.old fronts.new }
    ensures spare { spare.new ≡ spare.old }
{
    for front in fronts.iter_mut() {
        finish_front(parcels, front, spare);
    }
}
