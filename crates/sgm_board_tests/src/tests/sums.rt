//! Sums of a parcel's rows.
use sgm_strip::Parcel;

/// Whether these are so many parcels, each as [`has_sums`] says.
pub(super) fn are_whole(parcels: &[Parcel], strips: usize) -> bool {
    parcels.len() == strips && parcels.iter().all(|parcel| has_sums(parcel))
}

/// Whether all directions are done and each row has the sums of the worked example.
pub(super) fn has_sums(parcel: &Parcel) -> bool {
    let outer = [64, 65, 65, 65, 66, 65, 66, 64, 65, 64];
    let inner = [64, 65, 49, 64, 49, 1, 49, 0, 65, 64];
    let cut = parcel.cut();
    let strip = parcel.strip();
    let top = cut.first(strip);
    for y in top..top + cut.rows(strip) {
        let wanted = if y == 1 { inner } else { outer };
        if parcel.sums_row(y) != wanted.as_slice() {
            return false;
        }
    }
    parcel.is_complete()
}
