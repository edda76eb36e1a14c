ghost use Rattle.std.specs.Prelude.{◌≡◌, ◌++◌, ◌∷◌, [], false};
ghost use Rattle.sgm_strip.specs.Scenes.{row_length};
ghost use Rattle.sgm_strip.specs.Parcels.{IsParcel, is_done, parcel_of, with_done};
ghost use Rattle.sgm_strip.specs.Fronts.{ComesNextTo, IsFront, front_parts, visit_of};

use crate::parcel::place;
use crate::sweeping::{StripCosts, pass_rows};
use crate::{Front, Parcel, Row, Visit};

/// Passes a front on through a strip: adds the path values of its direction to the sums of the
/// parcel. The strip is the one that comes next for the front, and the direction is not done in it.
/// The front's row is rewritten in place; what `spare`, which has room for a row, holds does not
/// matter. Takes no memory.
pub fn pass(parcel: &mut Parcel, front: &mut Front, spare: &mut Row, worker: u32)
    requires next { ComesNextTo front.old parcel.old }
    requires spare { spare.old ≡ row_length parcel.old.scene }
    requires left { is_done parcel.old.done front.old.dir ≡ false }

    // The direction is done in the parcel, the front has this visit, and all else stands.
    ensures parcel { parcel.new ≡ parcel_of parcel.old.scene parcel.old.cut parcel.old.strip
        (with_done parcel.old.done front.old.dir) parcel.old.costs parcel.new.sums }
    ensures front { front.new
        ≡ front_parts front.old.scene front.old.cut front.old.dir front.new.row
        (front.old.visits ++ visit_of parcel.old.strip worker ∷ []) }
    ensures spare { spare.new ≡ spare.old }

    // So the sums and the row are what the types say.
    ensures parcel_kept { IsParcel parcel.new }
    ensures front_kept { IsFront front.new }
{
    let dir = front.dir;
    let (cut, span) = (parcel.cut, parcel.span());
    let strip = StripCosts {
        pen: parcel.pen,
        guide: &parcel.guide,
        costs: &parcel.costs,
        top: cut.first(parcel.strip),
        count: span.count as usize,
    };
    pass_rows(
        dir,
        &strip,
        !front.visits.is_empty(),
        front.row.as_mut_slice(),
        spare.values.as_mut_slice(),
        parcel.sums.as_mut_slice(),
    );
    parcel.done[place(dir)] = true;
    front.visits.push_reserved(Visit {
        strip: parcel.strip,
        worker,
    });
}
