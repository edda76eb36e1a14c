//! The checks of one key, and of one object.

ghost use Rattle.std.specs.Prelude.{◌≡◌, ◌==◌, ◌&&◌, ◌+◌, ◌<◌, ◌≤ℤ◌, unsigned_abs, map, All, IfOk};
ghost use Rattle.std.specs.Prelude.{IfErr, OnOk, IsTrue, Some, None, Ok, Err, string_bytes};
ghost use Rattle.std.specs.Prelude.{option_map, IsSome, not};
ghost use Rattle.std.specs.BTreeMap.{keys};
ghost use Rattle.std.specs.List.{list_all, list_any};
ghost use Rattle.std.specs.Str.{bytes_eq};
ghost use Rattle.std.specs.Result.{result_err};
ghost use Rattle.serde_json.specs.View.{view};
ghost use Rattle.serde_json.specs.Find.{as_bool, as_str, get};
ghost use Rattle.sgm_calib.specs.Table as table;
ghost use Rattle.sgm_calib.specs.Table.{is_known};
ghost use Rattle.sgm_calib.specs.Rows.{key_at, whole, whole_at, number_of, IsCount, least};
ghost use Rattle.sgm_calib.specs.Rows.{greatest, has_parity, is_in_range, is_required, is_since};
ghost use Rattle.sgm_calib.specs.Rows.{is_given, truth_at, meant, form_meant, presence_meant};
ghost use Rattle.sgm_calib.specs.Checks.{number_in, typed_in, wholes_fault, object_fault, text_of};
ghost use Rattle.sgm_calib.specs.Checks.{sort_of};
ghost use Rattle.sgm_calib.specs.Judge.{rule_in, columns_in, version_fault, top_fault};
ghost use Rattle.sgm_calib.specs.Judge.{itself_fault};

use crate::keys::{CalibFault, Key};
use crate::place::{PLAIN, Place};
use crate::sort::Sort;
use crate::table::{Form, Presence, Row, TOP, VERSION, rows};
use serde_json::{Map, Value};
use sgm_census::CostRule;
use sgm_report::Columns;

/// The key that a row is at a place.
pub fn key_at(row: &Row, place: Place) -> Key
    requires { row.now.number + place.shift < 256 }
    ensures { result ≡ key_at place (meant row.now) }
{
    Key {
        number: row.number + place.shift,
        index: place.index,
    }
}

/// The whole number under a name of an object, and 0 where there is none.
pub fn number_at(object: &Value, name: &str) -> i64
    ensures { result ≡ whole_at name.now (view object.now) }
{
    match object.get(name) {
        None => 0,
        Some(value) => value.as_i64().unwrap_or(0),
    }
}

/// The number under a name of an object, which isn't negative and fits.
#[tactic(auto, using(std::proofs::lemmas::Int::ints))]
pub fn count_at(object: &Value, name: &str) -> u32
    requires { IsCount (whole_at name.now (view object.now)) }
    ensures { result ≡ unsigned_abs (whole_at name.now (view object.now)) }
{
    number_at(object, name) as u32
}

fn least(row: &Row, object: &Value) -> i64
    ensures { result ≡ least (form_meant row.now.form) (view object.now) }
{
    match row.form {
        Form::Between(low, _)
        | Form::Odd(low, _)
        | Form::Matrix(low, _)
        | Form::Rotation(low, _)
        | Form::Nodes(low, _)
        | Form::Corners(low, _) => low,
        Form::From(name, _) => number_at(object, name),
        Form::Column | Form::Line => 0,
        _ => 1,
    }
}

fn greatest(row: &Row, place: Place, object: &Value) -> i128
    ensures { result ≡ greatest (form_meant row.now.form) place (view object.now) }
{
    match row.form {
        Form::Between(_, high)
        | Form::Odd(_, high)
        | Form::From(_, high)
        | Form::Matrix(_, high)
        | Form::Rotation(_, high)
        | Form::Nodes(_, high)
        | Form::Corners(_, high) => i128::from(high),
        Form::Column => i128::from(place.cols) - 1,
        Form::Line => i128::from(place.rows) - 1,
        Form::ColumnsFrom(name) => i128::from(place.cols) - i128::from(number_at(object, name)),
        Form::LinesFrom(name) => i128::from(place.rows) - i128::from(number_at(object, name)),
        _ => 0,
    }
}

fn has_parity(row: &Row, whole: i64) -> bool
    ensures { result ≡ has_parity (form_meant row.now.form) whole }
{
    match row.form {
        Form::Odd(_, _) => whole.unsigned_abs() % 2 == 1,
        _ => true,
    }
}

/// Whether a number is in the range of a key of an object.
pub fn is_in_range(row: &Row, place: Place, object: &Value, whole: i64) -> bool
    ensures { result ≡ is_in_range (form_meant row.now.form) place (view object.now) whole }
{
    least(row, object) <= whole
        && i128::from(whole) <= greatest(row, place, object)
        && has_parity(row, whole)
}

/// The whole number of a key, or what is wrong: it is missing, or its type.
fn typed(object: &Value, row: &Row, place: Place) -> Result<i64, CalibFault>
    requires { row.now.number + place.shift < 256 }
    ensures exact { result ≡ typed_in whole place (view object.now) (meant row.now) }
    ensures value { IfOk result (λ z. number_of (meant row.now) (view object.now) ≡ z) }
{
    match object.get(row.name) {
        None => Err(CalibFault::Missing(key_at(row, place))),
        Some(value) => match value.as_i64() {
            None => Err(CalibFault::Type_(key_at(row, place))),
            Some(whole) => Ok(whole),
        },
    }
}

/// The whole number of a key, or what is wrong: it is missing, its type, its range.
pub fn whole(object: &Value, row: &Row, place: Place) -> Result<i64, CalibFault>
    requires { row.now.number + place.shift < 256 }
    ensures exact { result ≡ number_in place (view object.now) (meant row.now) }
    ensures value { IfOk result (λ z. number_of (meant row.now) (view object.now) ≡ z) }
    ensures low { IfOk result (λ z. least (form_meant row.now.form) (view object.now) ≤ℤ z) }
    ensures high { IfOk result
        (λ z. z ≤ℤ greatest (form_meant row.now.form) place (view object.now)) }
{
    odd_or_whole(object, row, place)
}

/// As [`whole`], with what a key of odd numbers asks beside its ends.
#[tactic(auto, unfolding(crate::specs::Checks::number_in))]
pub fn odd_or_whole(object: &Value, row: &Row, place: Place) -> Result<i64, CalibFault>
    requires { row.now.number + place.shift < 256 }
    ensures exact { result ≡ number_in place (view object.now) (meant row.now) }
    ensures value { IfOk result (λ z. number_of (meant row.now) (view object.now) ≡ z) }
    ensures low { IfOk result (λ z. least (form_meant row.now.form) (view object.now) ≤ℤ z) }
    ensures high { IfOk result
        (λ z. z ≤ℤ greatest (form_meant row.now.form) place (view object.now)) }
    ensures parity { IfOk result (λ z. IsTrue (has_parity (form_meant row.now.form) z)) }
{
    let whole = typed(object, row, place)?;
    if is_in_range(row, place, object, whole) {
        Ok(whole)
    } else {
        Err(CalibFault::Range(key_at(row, place)))
    }
}

/// Checks keys of an object, in their order, which are whole numbers.
pub fn check_numbers(object: &Value, rows: &[Row], place: Place) -> Result<(), CalibFault>
    requires { All (λ row. row.number + place.shift < 256) rows.now }
    ensures ok { OnOk result (wholes_fault place (view object.now) (map meant rows.now) ≡ None) }
    ensures fault { IfErr result
        (λ f. wholes_fault place (view object.now) (map meant rows.now) ≡ Some f) }
{
    for row in rows {
        odd_or_whole(object, row, place)?;
    }
    Ok(())
}

/// The text of a key, or what is wrong: it is missing, or its type.
pub fn text<'a>(object: &'a Value, row: &Row, place: Place) -> Result<&'a str, CalibFault>
    requires { row.now.number + place.shift < 256 }
    ensures ok { IfOk result (λ t. typed_in as_str place (view object.now) (meant row.now)
        ≡ Ok t.now) }
    ensures value { IfOk result (λ t. text_of (meant row.now) (view object.now) ≡ t.now) }
    ensures fault { IfErr result
        (λ f. typed_in as_str place (view object.now) (meant row.now) ≡ Err f) }
{
    match object.get(row.name) {
        None => Err(CalibFault::Missing(key_at(row, place))),
        Some(value) => match value.as_str() {
            None => Err(CalibFault::Type_(key_at(row, place))),
            Some(text) => Ok(text),
        },
    }
}

/// The truth value of a key, or what is wrong: it is missing, or its type.
pub fn truth(object: &Value, row: &Row, place: Place) -> Result<bool, CalibFault>
    requires { row.now.number + place.shift < 256 }
    ensures { result ≡ typed_in as_bool place (view object.now) (meant row.now) }
{
    match object.get(row.name) {
        None => Err(CalibFault::Missing(key_at(row, place))),
        Some(value) => match value.as_bool() {
            None => Err(CalibFault::Type_(key_at(row, place))),
            Some(truth) => Ok(truth),
        },
    }
}

/// The truth value under a name of an object, and false where there is none.
pub fn truth_at(object: &Value, name: &str) -> bool
    ensures { result ≡ truth_at name.now (view object.now) }
{
    match object.get(name) {
        None => false,
        Some(value) => value.as_bool().unwrap_or(false),
    }
}

/// Whether an object of that sort goes by that version or a later one.
pub fn is_since(first: u64, sort: Sort) -> bool
    ensures { result ≡ is_since first sort }
{
    match sort {
        Sort::Version(version) => first <= version,
        _ => false,
    }
}

/// Whether an object of that sort is given the key.
pub fn is_given(row: &Row, sort: Sort) -> bool
    ensures { result ≡ is_given (presence_meant row.now.presence) sort }
{
    match (row.presence, sort) {
        (Presence::OfKind(name), Sort::Side(kind)) => name == kind.name(),
        (Presence::OfKind(_), _) => false,
        (Presence::Since(first) | Presence::OptionalSince(first), _) => is_since(first, sort),
        _ => true,
    }
}

/// Whether one of the rows gives an object of that sort the name.
fn gives_name(rows: &[Row], object: &Row, sort: Sort, name: &str) -> bool
    ensures { result ≡ list_any
        (λ row. (row.object == object.now.number) && is_given (presence_meant row.presence) sort
        && bytes_eq row.name.now name.now) rows.now }
{
    rows.iter().any(|row| row.object == object.number && is_given(row, sort) && row.name == name)
}

/// Whether the table gives an object of that sort the name.
fn is_known(object: &Row, sort: Sort, name: &str) -> bool
    ensures { result ≡ is_known (meant object.now) sort name.now }
{
    gives_name(rows(), object, sort, name)
}

fn has_only(members: &Map<String, Value>, object: &Row, sort: Sort) -> bool
    ensures { result ≡ list_all (λ name. is_known (meant object.now) sort (string_bytes name))
        (keys members.now) }
{
    members
        .keys()
        .all(|name| is_known(object, sort, name.as_str()))
}

/// Checks that a value is an object, and that it has no name but those of an object of that sort.
#[tactic(auto, unfolding(crate::specs::Checks::object_fault))]
pub fn check_object(value: &Value, object: &Row, place: Place, sort: Sort) -> Result<(), CalibFault>
    requires { object.now.number + place.shift < 256 }
    ensures ok { OnOk result (object_fault place (meant object.now) sort (view value.now) ≡ None) }
    ensures fault { IfErr result
        (λ f. object_fault place (meant object.now) sort (view value.now) ≡ Some f) }
{
    match value.as_object() {
        None => Err(CalibFault::Type_(key_at(object, place))),
        Some(members) if has_only(members, object, sort) => Ok(()),
        Some(_) => Err(CalibFault::Unknown(key_at(object, place))),
    }
}

/// The sort of a value and of the objects that it holds: they go by its version.
#[tactic(auto, unfolding(crate::specs::Checks::sort_of))]
pub fn sort_of(top: &Value) -> Sort
    ensures { result ≡ sort_of (view top.now) }
{
    Sort::Version(number_at(top, VERSION.name).unsigned_abs())
}

/// By which rule the costs of a value are made: they go by its version.
#[tactic(auto, unfolding(crate::specs::Judge::rule_in))]
pub fn rule(top: &Value) -> CostRule
    ensures { result ≡ rule_in (view top.now) }
{
    if is_since(3, sort_of(top)) {
        CostRule::Smoothed
    } else {
        CostRule::Plain
    }
}

/// The columns of the table of a value's regions: they go by its version.
#[tactic(auto, unfolding(crate::specs::Judge::columns_in))]
pub fn columns(top: &Value) -> Columns
    ensures { result ≡ columns_in (view top.now) }
{
    if is_since(3, sort_of(top)) {
        Columns::Bridged
    } else {
        Columns::Plain
    }
}

/// Whether a key has to be there.
fn is_required(row: &Row, object: &Value) -> bool
    ensures { result ≡ is_required (presence_meant row.now.presence) (view object.now) }
{
    match row.presence {
        Presence::Optional | Presence::OptionalSince(_) => false,
        Presence::With(name) => object.get(name).is_some(),
        Presence::WithEither(name, other) => {
            object.get(name).is_some() || object.get(other).is_some()
        }
        _ => true,
    }
}

/// The object that a key of the value itself is, where it is there; or what is wrong with the
/// object itself.
#[tactic(auto, unfolding(crate::specs::Judge::itself_fault))]
pub fn object_in<'a>(top: &'a Value, row: &Row) -> Result<Option<&'a Value>, CalibFault>
    ensures ok { OnOk result (itself_fault (view top.now) (meant row.now) ≡ None) }
    ensures there { IfOk result
        (λ o. option_map (λ v. view v.now) o ≡ get row.now.name.now (view top.now)) }
    ensures required { IfOk result (λ o.
        IsTrue (is_required (presence_meant row.now.presence) (view top.now)) → IsSome o) }
    ensures fault { IfErr result (λ f. itself_fault (view top.now) (meant row.now) ≡ Some f) }
{
    let _number = row.number;
    match top.get(row.name) {
        None if is_required(row, top) => Err(CalibFault::Missing(key_at(row, PLAIN))),
        None => Ok(None),
        Some(object) => {
            check_object(object, row, PLAIN, sort_of(top))?;
            Ok(Some(object))
        }
    }
}

#[tactic(auto, unfolding(crate::specs::Judge::version_fault))]
fn check_version(top: &Value) -> Result<(), CalibFault>
    ensures ok { OnOk result (version_fault (view top.now) ≡ None) }
    ensures fault { IfErr result (λ f. version_fault (view top.now) ≡ Some f) }
{
    let row = &VERSION;
    let version = typed(top, row, PLAIN)?;
    if is_in_range(row, PLAIN, top, version) {
        Ok(())
    } else {
        Err(CalibFault::Version)
    }
}

/// Checks the value itself: that it is an object, its version, and that it has no name but those
/// that its version knows.
#[tactic(auto, unfolding(crate::specs::Judge::top_fault))]
pub fn check_top(top: &Value) -> Result<(), CalibFault>
    ensures ok { OnOk result (top_fault (view top.now) ≡ None) }
    ensures fault { IfErr result (λ f. top_fault (view top.now) ≡ Some f) }
{
    let row = &TOP;
    let Some(_) = top.as_object() else {
        return Err(CalibFault::Type_(key_at(row, PLAIN)));
    };
    check_version(top)?;
    check_object(top, row, PLAIN, sort_of(top))
}
