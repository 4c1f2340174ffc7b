//! The values that operators take: those of literals and of the entity where they are stored.
ghost use Rattle.std.specs.Prelude.{◌≡◌, ℤ, Option, Some, Bool};
ghost use Rattle.edm_values.specs.PlainVal.{plain_val};
ghost use Rattle.edm_values.specs.Sparse.{beside};
ghost use Rattle.edm_values.specs.declared.value.Value.{Null};
ghost use Rattle.odata_functions.specs.DatumVal.{Reading, datum_val};
ghost use Rattle.odata_filter_operations.specs.CalculationGives.{number_val};
ghost use Rattle.odata_filter_operations.specs.TruthGives.{truth_val};
ghost use Rattle.odata_filter_operations.specs.DatumView.{HasSlot, IsDatumOf, IsStepOf};

use edm_values::{Datum, Value};
use std::borrow::CowStr;

/// Returns a stored value. Its text, its fields or its items stay there.
#[inline(always)]
pub fn datum_of(value: &Value) -> Datum<'_>
    ensures { IsDatumOf value.now result }
{
    match value {
        Value::Null => Datum::Null,
        Value::Bool(b) => Datum::Bool(*b),
        Value::Int(n) => Datum::Int(*n),
        Value::Text(s) => Datum::Text(CowStr::Borrowed(s.as_str())),
        Value::Date(d) => Datum::Date(*d),
        Value::Moment(m) => Datum::Moment(*m),
        Value::Guid(g) => Datum::Guid(*g),
        Value::Enum(n) => Datum::Enum(*n),
        Value::Record(fields) => Datum::Record(fields.as_slice()),
        Value::Sparse(held) => Datum::Sparse(held.as_slice()),
        Value::List(items) => Datum::List(items.as_slice()),
    }
}

/// Returns a stored number, or None for null.
#[inline(always)]
pub fn kept_number(value: &Value) -> Option<i64>
    requires { (number : Option ℤ) × (plain_val value.now ≡ Some (number_val number)) }
    ensures { plain_val value.now ≡ Some (number_val result) }
{
    match value {
        Value::Int(n) => Some(*n),
        _ => None,
    }
}

/// Returns a stored truth value, or None for null.
#[inline(always)]
pub fn kept_truth(value: &Value) -> Option<bool>
    requires { (truth : Option Bool) × (plain_val value.now ≡ Some (truth_val truth)) }
    ensures { plain_val value.now ≡ Some (truth_val result) }
{
    match value {
        Value::Bool(b) => Some(*b),
        _ => None,
    }
}

/// What stands beside a slot; null where nothing does.
fn datum_beside(held: &[(usize, Value)], slot: usize) -> Datum<'_>
    ensures { IsDatumOf (beside Null held.now slot) result }
{
    for place in 0..held.len() {
        let one = &held[place];
        if one.0 == slot {
            return datum_of(&one.1);
        }
    }
    Datum::Null
}

/// Returns what a record has in a slot; null of null.
pub fn step<'e>(base: Datum<'e>, slot: usize) -> Datum<'e>
    requires { HasSlot base slot }
    ensures { IsStepOf base.entry slot result }
{
    match base {
        Datum::Record(fields) => datum_of(&fields[slot]),
        Datum::Sparse(held) => datum_beside(held, slot),
        _ => Datum::Null,
    }
}

/// Returns a truth value, or None for null.
pub fn truth_of(value: &Datum<'_>) -> Option<bool>
    requires { (reading : Reading) → (truth : Option Bool) × (datum_val reading value.now ≡ truth_val truth) }
    ensures { (reading : Reading) → datum_val reading value.now ≡ truth_val result }
{
    match value {
        Datum::Bool(b) => Some(*b),
        _ => None,
    }
}

/// Returns a number, or None for null.
pub fn number_of(value: &Datum<'_>) -> Option<i64>
    requires { (reading : Reading) → (number : Option ℤ) × (datum_val reading value.now ≡ number_val number) }
    ensures { (reading : Reading) → datum_val reading value.now ≡ number_val result }
{
    match value {
        Datum::Int(n) => Some(*n),
        _ => None,
    }
}

/// Returns a truth value, null for None.
pub fn datum_of_truth<'e>(truth: Option<bool>) -> Datum<'e>
    ensures { (reading : Reading) → datum_val reading result ≡ truth_val truth }
{
    match truth {
        Some(b) => Datum::Bool(b),
        None => Datum::Null,
    }
}

/// Returns a number, null for None.
pub fn datum_of_number<'e>(number: Option<i64>) -> Datum<'e>
    ensures { (reading : Reading) → datum_val reading result ≡ number_val number }
{
    match number {
        Some(n) => Datum::Int(n),
        None => Datum::Null,
    }
}
