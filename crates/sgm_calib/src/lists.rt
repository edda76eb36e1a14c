//! Lists of whole numbers.

ghost use Rattle.std.specs.Prelude.{◌≡◌, ◌+◌, ◌/◌, ◌<◌, ◌&&◌, ◌≤ℤ◌, pos, map, length, All, IfOk};
ghost use Rattle.std.specs.Prelude.{IfErr, IfSome, OnOk, is_some, unwrap_or, Some, None};
ghost use Rattle.std.specs.List.{list_all};
ghost use Rattle.serde_json.specs.View.{view};
ghost use Rattle.serde_json.specs.Find.{as_array};
ghost use Rattle.sgm_calib.specs.declared.lists.Amount.TheVariants.{Exactly};
ghost use Rattle.sgm_calib.specs.Table as table;
ghost use Rattle.sgm_calib.specs.Rows.{whole, least, greatest, is_in_range, meant, form_meant};
ghost use Rattle.sgm_calib.specs.Rows.{presence_meant};
ghost use Rattle.sgm_calib.specs.Checks.{Allows, elements, may_have, numbers, numbers_fault};
ghost use Rattle.sgm_calib.specs.Checks.{numbers_at, value_of};
ghost use Rattle.sgm_calib.specs.WarpKeys.{IsWithin32, pairs};

use crate::checks::{is_in_range, key_at};
use crate::keys::CalibFault;
use crate::place::Place;
use crate::table::Row;
use serde_json::Value;
use sgm_report::{MAX_CORNERS, MIN_CORNERS};
use std::alloc::{AllocError, Global};

/// How many numbers a list may have.
#[derive(Clone, Copy)]
pub enum Amount {
    /// So many.
    Exactly(usize),
    /// Two for each corner of an outline.
    Corners,
}

impl Amount {
    /// Whether it may have so many.
    fn allows(self, count: usize) -> bool
        ensures { result ≡ may_have self count }
    {
        match self {
            Amount::Exactly(wanted) => count == wanted,
            Amount::Corners => count % 2 == 0
                && MIN_CORNERS <= count / 2
                && count / 2 <= MAX_CORNERS,
        }
    }
}

/// The elements of a list, or None where the value is no list.
#[tactic(auto, unfolding(crate::specs::Checks::elements))]
pub fn elements(value: &Value) -> Option<&[Value]>
    ensures list { is_some (as_array (view value.now)) ≡ is_some result }
    ensures items { IfSome result (λ items. map view items.now ≡ elements (view value.now)) }
{
    match value.as_array() {
        None => None,
        Some(items) => Some(items.as_slice()),
    }
}

fn is_whole(value: &Value) -> bool
    ensures { result ≡ is_some (whole (view value.now)) }
{
    value.as_i64().is_some()
}

/// The whole number that a value is, and 0 where it is none.
pub fn number(value: &Value) -> i64
    ensures { result ≡ unwrap_or (whole (view value.now)) (pos 0) }
{
    value.as_i64().unwrap_or(0)
}

fn are_whole(items: &[Value]) -> bool
    ensures { result ≡ list_all (λ item. is_some (whole (view item))) items.now }
{
    items.iter().all(|item| is_whole(item))
}

/// Whether an element is in the range of a list's numbers.
fn is_entry(object: &Value, row: &Row, place: Place, item: &Value) -> bool
    ensures { result ≡ is_in_range (form_meant row.now.form) place (view object.now)
        (unwrap_or (whole (view item.now)) (pos 0)) }
{
    is_in_range(row, place, object, number(item))
}

fn are_entries(object: &Value, row: &Row, place: Place, items: &[Value]) -> bool
    ensures { result ≡ list_all
        (λ item. is_in_range (form_meant row.now.form) place (view object.now)
        (unwrap_or (whole (view item)) (pos 0)))
        items.now }
{
    items.iter().all(|item| is_entry(object, row, place, item))
}

/// Whether there are as many items as there may be, each in the range of the list's numbers.
fn is_full(object: &Value, row: &Row, place: Place, amount: Amount, items: &[Value]) -> bool
    ensures { result ≡ (may_have amount (length items.now) && list_all
        (λ item. is_in_range (form_meant row.now.form) place (view object.now)
        (unwrap_or (whole (view item)) (pos 0)))
        items.now) }
{
    amount.allows(items.len()) && are_entries(object, row, place, items)
}

/// The whole numbers of a list in an object, so many of them; or what is wrong: the list is
/// missing, its type or an element's, its count or an element's range.
#[tactic(auto, unfolding(crate::specs::Checks::numbers_fault))]
pub fn numbers<'a>(
    object: &'a Value,
    row: &Row,
    place: Place,
    amount: Amount,
) -> Result<&'a [Value], CalibFault>
    requires { row.now.number + place.shift < 256 }
    ensures ok { OnOk result (numbers_fault place (view object.now) (meant row.now) amount ≡ None) }
    ensures value { IfOk result
        (λ items. map (λ item. unwrap_or (whole (view item)) (pos 0)) items.now
        ≡ numbers (value_of (meant row.now) (view object.now))) }
    ensures count { IfOk result (λ items. Allows amount (length items.now)) }
    ensures range { IfOk result (λ items. All (λ item.
        (least (form_meant row.now.form) (view object.now) ≤ℤ unwrap_or (whole (view item)) (pos 0))
        × (unwrap_or (whole (view item)) (pos 0) ≤ℤ greatest (form_meant row.now.form) place
        (view object.now)))
        items.now) }
    ensures fault { IfErr result
        (λ f. numbers_fault place (view object.now) (meant row.now) amount ≡ Some f) }
{
    let Some(value) = object.get(row.name) else {
        return Err(CalibFault::Missing(key_at(row, place)));
    };
    let Some(items) = elements(value) else {
        return Err(CalibFault::Type_(key_at(row, place)));
    };
    if !are_whole(items) {
        return Err(CalibFault::Type_(key_at(row, place)));
    }
    if is_full(object, row, place, amount, items) {
        Ok(items)
    } else {
        Err(CalibFault::Range(key_at(row, place)))
    }
}

/// The nine whole numbers of a list in an object; or what is wrong, as of [`numbers`].
pub fn nine(object: &Value, row: &Row, place: Place) -> Result<[i64; 9], CalibFault>
    requires { row.now.number + place.shift < 256 }
    ensures ok { OnOk result
        (numbers_fault place (view object.now) (meant row.now) (Exactly 9) ≡ None) }
    ensures value { IfOk result (λ entries. entries
        ≡ numbers_at (meant row.now) (view object.now)) }
    ensures count { IfOk result (λ entries. length entries ≡ 9) }
    ensures range { IfOk result (λ entries. All (λ z.
        (least (form_meant row.now.form) (view object.now) ≤ℤ z)
        × (z ≤ℤ greatest (form_meant row.now.form) place (view object.now))) entries) }
    ensures fault { IfErr result
        (λ f. numbers_fault place (view object.now) (meant row.now) (Exactly 9) ≡ Some f) }
{
    let items = numbers(object, row, place, Amount::Exactly(9))?;
    let mut entries = [0; 9];
    for index in 0..9 {
        entries[index] = number(&items[index]);
    }
    Ok(entries)
}

/// Two numbers as a pair.
fn pair(u: &Value, v: &Value) -> (i32, i32)
    requires u { IsWithin32 (unwrap_or (whole (view u.now)) (pos 0)) }
    requires v { IsWithin32 (unwrap_or (whole (view v.now)) (pos 0)) }
    ensures { result
        ≡ (unwrap_or (whole (view u.now)) (pos 0), unwrap_or (whole (view v.now)) (pos 0)) }
{
    (number(u) as i32, number(v) as i32)
}

/// The pairs that numbers are by twos.
pub fn pairs(alloc: Global, items: &[Value]) -> Result<Vec<(i32, i32)>, AllocError>
    requires range { All (λ item. IsWithin32 (unwrap_or (whole (view item)) (pos 0))) items.now }
    ensures value { IfOk result (λ places. places.items
        ≡ pairs (map (λ item. unwrap_or (whole (view item)) (pos 0)) items.now)) }
    ensures count { IfOk result (λ places. length places.items ≡ length items.now / 2) }
{
    let count = items.len() / 2;
    let mut places = Vec::with_capacity(alloc, count)?;
    for index in 0..count {
        places.push(pair(&items[2 * index], &items[2 * index + 1]))?;
    }
    Ok(places)
}
