//! Values that are written over where they stand.
ghost use Rattle.std.specs.Borrow.{LendsIf, sem};
ghost use Rattle.std.specs.Prelude.{◌≡◌, length, IsTrue};
ghost use Rattle.edm_values.specs.contracts.value.Value.{the_row};
ghost use Rattle.edm_values.specs.declared.value.Value.{List as ListOf, Record as RecordOf};
ghost use Rattle.spare_values.specs.Written.{list_row};

use edm_values::Value;

/// Puts a number into a slot.
#[inline(always)]
pub fn put_number(number: i64, value: &mut Value)
    ensures { value.new ≡ Value.Int number }
{
    match value {
        Value::Int(old) => *old = number,
        _ => replace_number(number, value),
    }
}

#[inline(never)]
fn replace_number(number: i64, value: &mut Value)
    ensures { value.new ≡ Value.Int number }
{
    *value = Value::Int(number);
}

/// Puts a truth value into a slot.
#[inline(always)]
pub fn put_truth(truth: bool, value: &mut Value)
    ensures { value.new ≡ Value.Bool truth }
{
    match value {
        Value::Bool(old) => *old = truth,
        _ => replace_truth(truth, value),
    }
}

#[inline(never)]
fn replace_truth(truth: bool, value: &mut Value)
    ensures { value.new ≡ Value.Bool truth }
{
    *value = Value::Bool(truth);
}

/// The values of the record in a slot, to be filled there.
#[inline(always)]
pub fn record_in(value: &mut Value) -> Option<&mut Vec<Value>>
    ensures* { sem 𝓛 (LendsIf the_row list_row value.entry result RecordOf value.old) }
{
    if let Value::Record(values) = value {
        Some(values)
    } else {
        None
    }
}

/// The items of the list in a slot, to be filled there.
#[inline(always)]
pub fn list_in(value: &mut Value) -> Option<&mut Vec<Value>>
    ensures* { sem 𝓛 (LendsIf the_row list_row value.entry result ListOf value.old) }
{
    if let Value::List(items) = value {
        Some(items)
    } else {
        None
    }
}

/// Makes a record's values as many as the slots of its type; false where an allocation failed.
/// Its clauses say nothing of false: there may be fewer values.
#[inline(always)]
pub fn fit_count(values: &mut Vec<Value>, count: usize) -> bool
    ensures { IsTrue result → length values.new.items ≡ count }
{
    values.len() == count || change_count(values, count)
}

#[inline(never)]
fn change_count(values: &mut Vec<Value>, count: usize) -> bool
    ensures { IsTrue result → length values.new.items ≡ count }
{
    values.truncate(count);
    'missing: while values.len() < count {
        if values.push(Value::Null).is_err() {
            return false;
        }
    }
    values.len() == count
}
