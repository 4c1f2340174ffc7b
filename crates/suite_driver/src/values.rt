//! The values of an entity, in one line.
use crate::literals::push_date;
use edm_values::{Value, write_guid, write_int, write_moment, write_string};
use std::alloc::AllocError;

/// Appends a value in its canonical spelling; a record stands in braces, a list in brackets, an enumeration value is
/// its number.
#[cycle(push)]
fn push_value(text: &mut String, value: &Value) -> Result<(), AllocError> {
    match value {
        Value::Null => text.push_str("null"),
        Value::Bool(truth) => write!(text, "{truth}"),
        Value::Int(number) => write_int(text, *number),
        Value::Text(content) => write_string(text, content.as_str()),
        Value::Date(date) => push_date(text, *date),
        Value::Moment(moment) => write_moment(text, moment),
        Value::Guid(guid) => write_guid(text, *guid),
        Value::Enum(number) => write_int(text, *number),
        Value::Record(items) => push_values(text, "{", items.as_slice(), "}"),
        Value::Sparse(held) => push_few(text, held.as_slice()),
        Value::List(items) => push_values(text, "[", items.as_slice(), "]"),
    }
}

#[cycle(push)]
fn push_values(
    text: &mut String,
    before: &str,
    values: &[Value],
    after: &str,
) -> Result<(), AllocError> {
    text.push_str(before)?;
    let mut is_first = true;
    for value in values {
        if !is_first {
            text.push_str(", ")?;
        }
        push_value(text, value)?;
        is_first = false;
    }
    text.push_str(after)
}

/// Appends the values of a record of few, each after its slot.
#[cycle(push)]
fn push_few(text: &mut String, held: &[(usize, Value)]) -> Result<(), AllocError> {
    text.push('{')?;
    for one in held {
        write!(text, " {}: ", one.0)?;
        push_value(text, &one.1)?;
    }
    text.push('}')
}

/// Appends the values of a record in slot order.
pub(crate) fn push_slots(text: &mut String, value: &Value) -> Result<(), AllocError> {
    match value {
        Value::Record(items) => push_values(text, "", items.as_slice(), ""),
        _ => text.push_str("no record"),
    }
}
