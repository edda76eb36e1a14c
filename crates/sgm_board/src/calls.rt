//! The calls on a board. None of them takes memory or waits.
ghost use Rattle.std.specs.Prelude.{◌≡◌, ◌≢◌, ℕ, ◌+◌, ◌*◌, ◌/◌, ◌<◌};
ghost use Rattle.std.specs.Prelude.{◌≤◌, false, Some, IfSome, IfNone};
ghost use Rattle.sgm_energy.specs.Dirs.{is_level, position_of};
ghost use Rattle.sgm_strip.specs.Parcels.{IsOf, is_done};
ghost use Rattle.sgm_board.specs.Words.{dir_word, strip_word};
ghost use Rattle.sgm_board.specs.Passes.{after_look, after_claim, after_return, after_try};
ghost use Rattle.sgm_board.specs.Passes.{after_take, after_put, HasReadAll, HasJoined};
ghost use Rattle.sgm_board.specs.Boards.{parts_of, scene_of, cut_of, strips_of};
ghost use Rattle.sgm_board.specs.Boards.{IsPassOf, IsIdle, IsHeld, HoldsOnly};
ghost use Rattle.sgm_board.specs.Boards.{IsDue, WentThrough};

use crate::board::Board;
use crate::pass::Pass;
use crate::steps;
use sgm_energy::Dir;
use sgm_strip::{Front, Parcel};

impl Board {
    /// The number of strips.
    pub fn strips(&self) -> u32
        ensures { result ≡ strips_of self.now }
    {
        self.cut.strips
    }

    /// Claims a strip that nobody holds, and gives its parcel: the pass then holds the strip, shows
    /// the directions done in the parcel, and has read the word of each direction. None only where
    /// the word of the strip, which was looked at once in this call, was 1.
    pub fn try_claim(&self, pass: &mut Pass, strip: u32) -> Option<Parcel>
        requires own { IsPassOf self.now pass.old }
        requires idle { IsIdle (parts_of pass.old) }
        requires strip { strip < strips_of self.now }
        ensures own { IsPassOf self.now pass.new }
        ensures parcel { IfSome result (λ parcel. IsOf (scene_of self.now) (cut_of self.now) parcel
            × (parcel.strip ≡ strip)) }
        ensures shown { IfSome result (IsHeld self.now (parts_of pass.new)) }
        ensures some { let looked = after_look (parts_of pass.old) (strip_word strip) 0 in
            IfSome result (λ parcel. let claimed = after_claim looked strip (is_done parcel.done) in
            HasReadAll (strips_of self.now) claimed (parts_of pass.new)) }
        ensures none { IfNone result (parts_of pass.new
            ≡ after_look (parts_of pass.old) (strip_word strip) 1) }
    {
        steps::claim(&self.table.shared, &mut pass.seat, strip)
    }

    /// Takes the front of a direction that is not level, if the strip held is the one that comes
    /// next for it and no pass has it. None only where the direction's word, which was looked at
    /// once in this call, was not twice the strip's position.
    pub fn try_take(&self, pass: &mut Pass, parcel: &Parcel, dir: Dir) -> Option<Front>
        requires holds { HoldsOnly self.now pass.old parcel.now }
        requires across { is_level dir ≡ false }
        ensures own { IsPassOf self.now pass.new }
        ensures held { IsHeld self.now (parts_of pass.new) parcel.now }
        ensures front { IfSome result (IsDue self.now dir parcel.now) }
        ensures some { let due = 2 * position_of dir parcel.now.strip (strips_of self.now) in
            let tried =
            after_try (after_look (parts_of pass.old) (dir_word dir) due) parcel.now.strip dir in
            IfSome result (λ _. parts_of pass.new ≡ after_take tried dir) }
        ensures none { let due = 2 * position_of dir parcel.now.strip (strips_of self.now) in
            IfNone result ((found : ℕ) × (found ≢ due)
            × (parts_of pass.new
            ≡ after_try
            (after_look (parts_of pass.old) (dir_word dir) found) parcel.now.strip dir)) }
    {
        let strips = self.strips();
        let strip = parcel.strip();
        steps::take(&self.table.shared, &mut pass.seat, dir, strip, strips)
    }

    /// Puts back a front that went through the strip held, its visit signed with the number of the
    /// pass. It can't fail.
    pub fn put(&self, pass: &mut Pass, parcel: &Parcel, front: Front)
        requires own { IsPassOf self.now pass.old }
        requires has_it { (parts_of pass.old).front ≡ Some front.dir }
        requires held { (parts_of pass.old).strip ≡ Some parcel.now.strip }
        requires through { WentThrough self.now (parts_of pass.old).number parcel.now front }
        ensures own { IsPassOf self.now pass.new }
        ensures put { let was = 2 * position_of front.dir parcel.now.strip (strips_of self.now)
            + 1 in
            parts_of pass.new
            ≡ after_put (after_look (parts_of pass.old) (dir_word front.dir) was) front.dir }
    {
        let strips = self.strips();
        let strip = parcel.strip();
        let dir = front.dir();
        steps::put(
            &self.table.shared,
            &mut pass.seat,
            front,
            dir,
            strip,
            strips,
        );
    }

    /// Gives back the parcel of the strip held, with the directions done that the pass shows. The
    /// pass then holds nothing. It can't fail.
    pub fn give_back(&self, pass: &mut Pass, parcel: Parcel)
        requires holds { HoldsOnly self.now pass.old parcel }
        ensures own { IsPassOf self.now pass.new }
        ensures idle { IsIdle (parts_of pass.new) }
        ensures back { parts_of pass.new
            ≡ after_return (after_look (parts_of pass.old) (strip_word parcel.strip) 1) }
    {
        let strip = parcel.strip();
        steps::give_back(&self.table.shared, &mut pass.seat, strip, parcel);
    }

    /// How many strips the front of a direction that is not level has passed, at one look at its
    /// word.
    pub fn passed(&self, pass: &mut Pass, dir: Dir) -> u32
        requires own { IsPassOf self.now pass.old }
        requires across { is_level dir ≡ false }
        ensures own { IsPassOf self.now pass.new }
        ensures look { (found : ℕ) × (result ≡ found / 2) × (found ≤ 2 * strips_of self.now)
            × (parts_of pass.new ≡ after_look (parts_of pass.old) (dir_word dir) found) }
    {
        let found = steps::look(&self.table.shared, &mut pass.seat, steps::word_of(dir));
        (found / 2) as u32
    }

    /// Joins another pass to this one. Neither holds anything.
    pub fn join(&self, pass: &mut Pass, other: Pass)
        requires own { IsPassOf self.now pass.old }
        requires idle { IsIdle (parts_of pass.old) }
        requires other { IsPassOf self.now other }
        requires other_idle { IsIdle (parts_of other) }
        ensures own { IsPassOf self.now pass.new }
        ensures idle { IsIdle (parts_of pass.new) }
        ensures joined { HasJoined (parts_of pass.old) (parts_of other) (parts_of pass.new) }
    {
        let Pass { seat, number: _ } = other;
        steps::join(&self.table.shared, &mut pass.seat, seat);
    }
}
