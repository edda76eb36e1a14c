//! The steps of a pass, on its seat. No public clause speaks of what stands here.
ghost use Rattle.std.specs.Prelude.{◌≡◌, ◌≢◌, ℕ, ◌+◌, ◌*◌, ◌<◌, ◌≤◌, Bool};
ghost use Rattle.std.specs.Prelude.{[], ◌∷◌, true, false, Some, None, length, IfSome, IfNone};
ghost use Rattle.sgm_energy.specs.declared.dir.Dir.{Dir};
ghost use Rattle.sgm_energy.specs.Dirs.{is_level, position_of};
ghost use Rattle.sgm_strip.specs.Parcels.{IsParcel, is_done};
ghost use Rattle.sgm_strip.specs.Fronts.{IsFront};
ghost use Rattle.sgm_board.specs.declared.view.About.{About};
ghost use Rattle.sgm_board.specs.declared.slot.Slot.TheVariants.{Empty};
ghost use Rattle.sgm_board.specs.Words.{dir_word, strip_word, word_count};
ghost use Rattle.sgm_board.specs.Views.{IsLive, joined_view, after_look, after_claim};
ghost use Rattle.sgm_board.specs.Views.{after_return, after_try, after_take, after_put};
ghost use Rattle.sgm_board.specs.Views.{is_known_done};
ghost use Rattle.sgm_board.specs.Plays.{IsWithin};
ghost use Rattle.sgm_board.specs.Plans.{about_of};
ghost use Rattle.sgm_board.specs.Pockets.{HasRead};
ghost use Rattle.sgm_board.specs.Shows.{IsParcelAt, IsFrontAt};

use crate::rule::{Claim, Gather, Look, PassSeat, Put, Read, Return, Shown, Take};
use crate::slot::Slot;
use sgm_energy::Dir;
use sgm_strip::{Front, Parcel};

/// The word, and the slot, of a direction.
pub(crate) fn word_of(dir: Dir) -> usize
    requires { is_level dir ≡ false }
    ensures word { result ≡ dir_word dir }
    ensures inside { result < 6 }
{
    let Some(front) = dir.front() else {
        unreachable!()
    };
    front
}

/// Reads the word of each direction, one after the other.
fn read_all(shown: &Shown, seat: &mut PassSeat)
    requires table { (seat.old.table_id ≡ shown.now.table_id) × (6 ≤ shown.now.table_id.words) }
    requires live { IsLive seat.old.me.0 × (seat.old.me.0.about ≡ Some (about_of shown.now.key)) }
    ensures table { seat.new.table_id ≡ seat.old.table_id }
    ensures slots { seat.new.me.1 ≡ seat.old.me.1 }
    ensures view { HasRead (about_of shown.now.key).cut.strips 6 seat.old.me.0 seat.new.me.0 }
{
    for word in 0..6 {
        shown.load::<Read>(seat, word);
    }
}

/// Holds the strip and takes its parcel out, if nobody holds it.
pub(crate) fn claim(shown: &Shown, seat: &mut PassSeat, strip: u32) -> Option<Parcel>
    requires table { (seat.old.table_id ≡ shown.now.table_id)
        × (shown.now.table_id.words ≡ word_count (about_of shown.now.key).cut.strips) }
    requires strip { strip < (about_of shown.now.key).cut.strips }
    requires idle { IsLive seat.old.me.0 × (seat.old.me.0.strip ≡ None)
        × (seat.old.me.0.about ≡ Some (about_of shown.now.key)) }
    ensures table { seat.new.table_id ≡ seat.old.table_id }
    ensures parcel { IfSome result (λ parcel. (due : Dir → Bool)
        × IsParcelAt (about_of shown.now.key) strip due parcel) }
    ensures slots { IfSome result (λ parcel. seat.new.me.1
        ≡ (strip_word strip, Empty) ∷ seat.old.me.1) }
    ensures some { IfSome result (λ parcel. HasRead (about_of shown.now.key).cut.strips 6
        (after_claim (after_look seat.old.me.0 (strip_word strip) 0) strip parcel.done)
        seat.new.me.0) }
    ensures none { IfNone result (seat.new.me
        ≡ (after_look seat.old.me.0 (strip_word strip) 1, seat.old.me.1)) }
{
    let word = 6 + strip as usize;
    if shown.compare_exchange::<Claim>(seat, word, 0, 1) != 0 {
        return None;
    }
    read_all(shown, seat);
    let Slot::OfStrip(parcel) = shown.exchange(seat, word, Slot::Empty) else {
        unreachable!()
    };
    Some(parcel)
}

/// Puts the parcel of the strip held into its slot, and lets the strip go.
pub(crate) fn give_back(shown: &Shown, seat: &mut PassSeat, strip: u32, parcel: Parcel)
    requires table { (seat.old.table_id ≡ shown.now.table_id)
        × (shown.now.table_id.words ≡ word_count (about_of shown.now.key).cut.strips) }
    requires strip { strip < (about_of shown.now.key).cut.strips }
    requires holds { (seat.old.me.0.strip ≡ Some strip) × (seat.old.me.0.front ≡ None)
        × (seat.old.me.0.about ≡ Some (about_of shown.now.key)) }
    requires slots { seat.old.me.1 ≡ (strip_word strip, Empty) ∷ [] }
    requires parcel { IsParcelAt (about_of shown.now.key) strip
        (is_known_done seat.old.me.0) parcel }
    ensures { (seat.new.table_id ≡ seat.old.table_id)
        × (seat.new.me ≡ (after_return (after_look seat.old.me.0 (strip_word strip) 1), [])) }
{
    let word = 6 + strip as usize;
    shown.exchange(seat, word, Slot::OfStrip(parcel));
    shown.compare_exchange::<Return>(seat, word, 1, 0);
}

/// Takes the front of the direction out, if the strip held comes next for it and nobody has it.
pub(crate) fn take(
    shown: &Shown,
    seat: &mut PassSeat,
    dir: Dir,
    strip: u32,
    strips: u32,
) -> Option<Front>
    requires table { (seat.old.table_id ≡ shown.now.table_id)
        × (shown.now.table_id.words ≡ word_count strips)
        × ((about_of shown.now.key).cut.strips ≡ strips) }
    requires strip { strip < strips }
    requires holds { (seat.old.me.0.strip ≡ Some strip) × (seat.old.me.0.front ≡ None)
        × (seat.old.me.0.about ≡ Some (about_of shown.now.key)) }
    requires dir { is_level dir ≡ false }
    ensures table { seat.new.table_id ≡ seat.old.table_id }
    ensures front { IfSome result (λ front.
        IsFrontAt (about_of shown.now.key) dir (position_of dir strip strips) front
        × (is_known_done seat.old.me.0 dir ≡ false)) }
    ensures some { IfSome result (λ front. seat.new.me ≡ (
      after_take
          (after_try
          (after_look seat.old.me.0 (dir_word dir) (2 * position_of dir strip strips))
          strip dir) dir,
      (dir_word dir, Empty) ∷ seat.old.me.1,
    )) }
    ensures none { IfNone result ((found : ℕ) × (found ≢ 2 * position_of dir strip strips)
        × (seat.new.me
        ≡ (after_try (after_look seat.old.me.0 (dir_word dir) found) strip dir, seat.old.me.1))) }
{
    let word = word_of(dir);
    let due = 2 * u64::from(dir.position(strip, strips));
    let found = shown.compare_exchange::<Take>(seat, word, due, due + 1);
    if found != due {
        return None;
    }
    let Slot::OfFront(front) = shown.exchange(seat, word, Slot::Empty) else {
        unreachable!()
    };
    Some(front)
}

/// Puts the front of the direction, which went through the strip held, into its slot.
pub(crate) fn put(
    shown: &Shown,
    seat: &mut PassSeat,
    front: Front,
    dir: Dir,
    strip: u32,
    strips: u32,
)
    requires table { (seat.old.table_id ≡ shown.now.table_id)
        × (shown.now.table_id.words ≡ word_count strips)
        × ((about_of shown.now.key).cut.strips ≡ strips) }
    requires strip { strip < strips }
    requires holds { (seat.old.me.0.strip ≡ Some strip) × (seat.old.me.0.front ≡ Some dir)
        × (seat.old.me.0.about ≡ Some (about_of shown.now.key)) }
    requires slots { seat.old.me.1 ≡ (dir_word dir, Empty) ∷ (strip_word strip, Empty) ∷ [] }
    requires dir { is_level dir ≡ false }
    requires front { IsFrontAt (about_of shown.now.key) dir
        (position_of dir strip strips + 1) front }
    ensures { (seat.new.table_id ≡ seat.old.table_id)
        × (seat.new.me ≡ (
          after_put
              (after_look seat.old.me.0 (dir_word dir) (2 * position_of dir strip strips + 1)) dir,
          (strip_word strip, Empty) ∷ [],
        )) }
{
    let word = word_of(dir);
    let due = 2 * u64::from(dir.position(strip, strips));
    shown.exchange(seat, word, Slot::OfFront(front));
    shown.compare_exchange::<Put>(seat, word, due + 1, due + 2);
}

/// Looks at the word of a direction.
pub(crate) fn look(shown: &Shown, seat: &mut PassSeat, word: usize) -> u64
    requires table { (seat.old.table_id ≡ shown.now.table_id) × (6 ≤ shown.now.table_id.words) }
    requires word { word < 6 }
    requires live { IsLive seat.old.me.0 }
    ensures seat { (seat.new.table_id ≡ seat.old.table_id)
        × (seat.new.me ≡ (after_look seat.old.me.0 word result, seat.old.me.1)) }
    ensures bound { IsWithin seat.old.me.0 result }
{
    shown.load::<Look>(seat, word)
}

/// Joins two passes that hold nothing.
pub(crate) fn join(shown: &Shown, seat: &mut PassSeat, other: PassSeat)
    requires table { (seat.old.table_id ≡ shown.now.table_id)
        × (other.table_id ≡ shown.now.table_id)
        × (0 < shown.now.table_id.words) × (other.me.1 ≡ []) }
    requires idle { IsLive seat.old.me.0 × (seat.old.me.0.strip ≡ None)
        × (seat.old.me.0.front ≡ None)
        × (other.me.0.strip ≡ None) × (other.me.0.front ≡ None) }
    ensures { (seat.new.table_id ≡ seat.old.table_id)
        × (seat.new.me ≡ (joined_view seat.old.me.0 other.me.0, seat.old.me.1)) }
{
    shown.join_seat::<Gather>(seat, other);
}
