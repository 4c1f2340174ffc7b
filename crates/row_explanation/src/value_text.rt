//! Values as a filter spells them, on one line.
use csdl_schema::{EnumId, Schema};
use edm_values::{Datum, Value, write_guid, write_int, write_moment, write_string};
use odata_typing::{EdmType, ValueType};
use std::alloc::AllocError;

/// Appends a number of an enumeration: in quotes the name of its member, or itself.
fn push_member(
    out: &mut String,
    schema: &Schema,
    id: EnumId,
    number: i64,
) -> Result<(), AllocError> {
    for index in 0..schema.enum_members(id) {
        if let Some((name, value)) = schema.enum_member(id, index) {
            if value == number {
                return write_string(out, name);
            }
        }
    }
    write_int(out, number)
}

/// Appends the number of a value of that type.
fn push_number(
    out: &mut String,
    schema: &Schema,
    edm_type: &EdmType,
    number: i64,
) -> Result<(), AllocError> {
    match edm_type {
        EdmType::Single(ValueType::Enum(id)) => push_member(out, schema, *id, number),
        _ => write_int(out, number),
    }
}

/// Appends how many members a collection or a record has.
fn push_count(out: &mut String, word: &str, count: usize) -> Result<(), AllocError> {
    write!(out, "{word} of {count}")
}

/// Appends a value as a filter spells it; of a collection and of a record, which no filter spells, how many members and
/// slots there are.
pub(crate) fn push_value(
    out: &mut String,
    schema: &Schema,
    edm_type: &EdmType,
    value: &Datum<'_>,
) -> Result<(), AllocError> {
    match value {
        Datum::Null => out.push_str("null"),
        Datum::Bool(true) => out.push_str("true"),
        Datum::Bool(false) => out.push_str("false"),
        Datum::Int(number) => write_int(out, *number),
        Datum::Text(text) => write_string(out, text),
        Datum::Date(date) => write!(out, "{date}"),
        Datum::Moment(moment) => write_moment(out, moment),
        Datum::Guid(guid) => write_guid(out, *guid),
        Datum::Enum(number) => push_number(out, schema, edm_type, *number),
        Datum::Record(slots) => push_count(out, "record", slots.len()),
        Datum::Sparse(slots) => push_count(out, "record", slots.len()),
        Datum::List(members) => push_count(out, "collection", members.len()),
    }
}

/// Appends a text on one line, its control characters by their numbers: `\u000a` for a line feed.
pub(crate) fn push_on_line(out: &mut String, text: &str) -> Result<(), AllocError> {
    for character in text.chars() {
        if character.is_control() {
            write!(out, "\\u{:04x}", u32::from(character))?;
        } else {
            out.push(character)?;
        }
    }
    Ok(())
}
