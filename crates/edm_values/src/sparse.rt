//! Records of few values.
ghost use Rattle.std.specs.Prelude.{◌≡◌, IfOk, IfSome, IsTrue, None, Ok};
ghost use Rattle.edm_values.specs.Sparse.{AreBeside};

use super::value::Value;
use std::alloc::{AllocError, Global};

fn is_null(value: &Value) -> bool
    ensures { IsTrue result → value.now ≡ Value.Null }
{
    match value {
        Value::Null => true,
        _ => false,
    }
}

/// How many of a record's slots hold a value that is not null, if they are at most a quarter of all. A row spells such a
/// value in six bytes or more, and four slots take 128: so a record takes at most 22 times its bytes either way.
#[inline(always)]
fn few_values(values: &[Value]) -> Option<usize> {
    let most = values.len() / 4;
    let mut few = 0;
    for slot in 0..values.len() {
        if !is_null(&values[slot]) {
            if few == most {
                return None;
            }
            few += 1;
        }
    }
    Some(few)
}

/// Takes the values that are not null out of a record, each beside its slot; there is room for so many.
#[inline(never)]
fn take_beside(
    alloc: Global,
    values: &mut Vec<Value>,
    count: usize,
) -> Result<Vec<(usize, Value)>, AllocError>
    ensures { IfOk result (λ held. AreBeside held.items values.old.items) }
{
    let mut held = Vec::with_capacity(alloc, count)?;
    while let Some(value) = values.pop() {
        if !is_null(&value) {
            held.push((values.len(), value))?;
        }
    }
    Ok(held)
}

/// Takes the values that are not null out of a record of few, each beside its slot. They are few where three slots in
/// four hold null; the record's list is empty then.
#[inline(always)]
pub fn take_few(
    alloc: Global,
    values: &mut Vec<Value>,
) -> Result<Option<Vec<(usize, Value)>>, AllocError>
    ensures few { IfOk result (λ few. IfSome few (λ held. AreBeside held.items values.old.items)) }
    ensures many { result ≡ Ok None → values.new ≡ values.old }
{
    let Some(count) = few_values(values.as_slice()) else {
        return Ok(None);
    };
    match take_beside(alloc, values, count) {
        Ok(held) => Ok(Some(held)),
        Err(error) => Err(error),
    }
}
